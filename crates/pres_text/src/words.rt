//! Words of a line: its longest runs of bytes that aren't blanks.

ghost use Rattle.std.specs.Prelude.{◌≡◌, ◌<◌, ◌≤◌, not, [], ◌∷◌, length, MatchOption, IfSome};
ghost use Rattle.std.specs.List.{prefix_len};
ghost use Rattle.std.specs.Str.{IsAscii};
ghost use Rattle.line_tokens.specs.Tokens.{is_blank};
ghost use Rattle.pres_text.specs.Lines.{words, is_text_byte, is_text};

use line_tokens::blank;

/// How many blanks the text begins with.
fn blanks_len(text: &[u8]) -> usize
    ensures len { result ≡ prefix_len is_blank text.now }
    ensures within { result ≤ length text.now }
{
    text.iter().take_while(|byte| blank(**byte)).count()
}

/// How many bytes stand before the first blank.
fn word_len(text: &[u8]) -> usize
    ensures len { result ≡ prefix_len (λ b. not (is_blank b)) text.now }
    ensures within { result ≤ length text.now }
{
    text.iter().take_while(|byte| !blank(**byte)).count()
}

/// The first word of a text, and what stands behind it.
pub(super) fn next_word(text: &[u8]) -> Option<(&[u8], &[u8])>
    ensures word { MatchOption result (words text.now ≡ [])
        (λ r. words text.now ≡ r.0.now ∷ words r.1.now) }
    ensures less { IfSome result (λ r. length r.1.now < length text.now) }
    ensures ascii { IsAscii text.now → IfSome result (λ r. IsAscii r.0.now × IsAscii r.1.now) }
{
    let (_, rest) = text.split_at(blanks_len(text));
    let len = word_len(rest);
    if len == 0 {
        return None;
    }
    Some(rest.split_at(len))
}

fn text_byte(byte: u8) -> bool
    ensures { result ≡ is_text_byte byte }
{
    byte == b'\t' || (32 <= byte && byte <= 126)
}

/// Whether each byte is a tab or 32 to 126.
pub(super) fn is_text(text: &[u8]) -> bool
    ensures { result ≡ is_text text.now }
{
    text.iter().all(|byte| text_byte(*byte))
}
