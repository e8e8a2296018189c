//! Cuts a line into tokens.

ghost use Rattle.std.specs.Prelude.{◌≡◌, ◌<◌, length, drop, slice_index, IfOk};
ghost use Rattle.std.specs.Str.{IsAscii};
ghost use Rattle.line_tokens.specs.Tokens.{single, token_at, tokens};

use super::bytes::{blank, digit, digits_len, word_len};
use super::integers::integer_kind;
use super::kind::Kind;
use super::token::Token;
use super::vocabulary::Vocabulary;
use std::alloc::{AllocError, Global};
use std::str;

fn single_kind(byte: u8) -> Kind
    ensures { result ≡ single byte }
{
    match byte {
        b'*' => Kind::Star,
        b'^' => Kind::Caret,
        b'(' => Kind::Open,
        b')' => Kind::Close,
        b'[' => Kind::SquareOpen,
        b']' => Kind::SquareClose,
        b',' => Kind::Comma,
        b'=' => Kind::Equal,
        b'|' => Kind::Bar,
        _ => Kind::Other,
    }
}

fn word_kind<V: Vocabulary>(vocabulary: &V, run: &[u8]) -> Kind
    requires { IsAscii run.now }
    ensures { result ≡ V.word vocabulary.now run.now }
{
    let Ok(text) = str::from_utf8(run) else {
        unreachable!();
    };
    vocabulary.kind_of(text)
}

/// The token at the front of bytes, and how many bytes it takes behind the first.
fn token_of<V: Vocabulary>(vocabulary: &V, bytes: &[u8]) -> (Kind, usize)
    requires { 0 < length bytes.now }
    ensures token { result.0 ≡ (token_at (V.word vocabulary.now) (slice_index bytes.now 0)
        (drop 1 bytes.now)).0 }
    ensures width { result.1 ≡ (token_at (V.word vocabulary.now) (slice_index bytes.now 0)
        (drop 1 bytes.now)).1 }
    ensures within { result.1 < length bytes.now }
{
    let byte = bytes[0];
    let (_, rest) = bytes.split_at(1);
    if byte.is_ascii_alphabetic() {
        let len = word_len(rest);
        return (word_kind(vocabulary, &bytes[..len + 1]), len);
    }
    let len = digits_len(rest);
    if digit(byte) {
        return (integer_kind(false, &bytes[..len + 1]), len);
    }
    if byte == b'-' && len >= 1 {
        return (integer_kind(true, &rest[..len]), len);
    }
    (single_kind(byte), 0)
}

/// The tokens of a line.
pub fn cut<V: Vocabulary>(
    alloc: Global,
    vocabulary: &V,
    line: &[u8],
) -> Result<Vec<Token>, AllocError>
    ensures { IfOk result (λ found. found.items ≡ tokens (V.word vocabulary.now) line.now) }
{
    // A token has at least one byte.
    let mut found = Vec::with_capacity(alloc, line.len())?;
    let mut at = 0;
    'cutting: while at < line.len() {
        if blank(line[at]) {
            at += 1;
        } else {
            let (_, rest) = line.split_at(at);
            let (kind, width) = token_of(vocabulary, rest);
            found.push(Token {
                kind,
                place: at + 1,
            })?;
            at += width + 1;
        }
    }
    Ok(found)
}
