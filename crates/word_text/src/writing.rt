//! Writes query lines.

ghost use Rattle.std.specs.Prelude.{◌≡◌, ◌-◌, ◌++◌, ◌≤◌, [], length, slice_index_or, string_bytes, IfOk, OnOk};
ghost use Rattle.word_text.specs.Lines.{ReadsAs};
ghost use Rattle.word_text.specs.Shaping.{IsShapedQuery, most_open};
ghost use Rattle.word_text.specs.Texts.{fixed, kind_text, text_of, query_text};
ghost use Rattle.word_text.specs.Writing.{written_query};

use super::spelling::tokens_of;
use super::vectors::push_decimal;
use line_tokens::Kind;
use nil_pres::Presentation;
use nil_word::{Memory, Query};
use std::alloc::Global;

/// The name of a generator, and nothing where there is none.
fn name_of(pres: &Presentation, number: u32) -> &str
    ensures { result.now ≡ slice_index_or pres.now.names (number - 1) [] }
{
    let place = number.saturating_sub(1);
    if place < pres.count() {
        pres.name(place + 1)
    } else {
        ""
    }
}

fn push_token(text: &mut String, pres: &Presentation, kind: Kind) -> Result<(), Memory>
    ensures { OnOk result (string_bytes text.new ≡ string_bytes text.old ++ kind_text pres.now.names kind) }
{
    match kind {
        Kind::Name { number } => text.push_str(name_of(pres, number)),
        Kind::Integer {
            value: Some(value),
            ..
        } => push_decimal(text, value),
        _ => text.push_str(fixed_text(kind)),
    }
}

/// The text of a token that is always written alike.
fn fixed_text(kind: Kind) -> &'static str
    ensures { result.now ≡ fixed kind }
{
    match kind {
        Kind::Star => "*",
        Kind::Caret => "^",
        Kind::Open => "(",
        Kind::Close => ")",
        Kind::SquareOpen => "[",
        Kind::SquareClose => "]",
        Kind::Comma => ",",
        Kind::Equal => " = ",
        Kind::Bar => " | ",
        Kind::Solve => "solve ",
        Kind::Quotient => "quotient ",
        _ => "",
    }
}

fn text_of(alloc: Global, pres: &Presentation, tokens: &[Kind]) -> Result<String, Memory>
    ensures { IfOk result (λ s. string_bytes s ≡ text_of pres.now.names tokens.now) }
{
    let mut text = String::new(alloc);
    for kind in tokens {
        push_token(&mut text, pres, *kind)?;
    }
    Ok(text)
}

/// The text of a query, with brackets only where the grammar needs them. It reads as the query again,
/// where the query is well shaped and at most 200 brackets are open at once in its text.
pub fn write_query(alloc: Global, pres: &Presentation, query: &Query) -> Result<String, Memory>
    ensures text { IfOk result (λ s. string_bytes s ≡ query_text pres.now.names query.now) }
    ensures again { IsShapedQuery (length pres.now.names) query.now
        → most_open (written_query query.now) ≤ 200 →
        IfOk result (λ s. ReadsAs pres.now.names (string_bytes s) query.now) }
{
    // Its names are lawful, so that the text reads again.
    let _count = pres.count();
    let tokens = tokens_of(alloc, query)?;
    text_of(alloc, pres, tokens.as_slice())
}
