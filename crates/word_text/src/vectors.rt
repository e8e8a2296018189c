//! The text of a vector.

ghost use Rattle.std.specs.Prelude.{◌≡◌, ◌++◌, string_bytes, IfOk, OnOk};
ghost use Rattle.std.specs.Fmt.{signed_decimal};
ghost use Rattle.word_text.specs.Vectors.{text_of_entries, space_before};

use itoa::Buffer;
use nil_word::{Memory, Vector};
use std::alloc::Global;

/// The entries in decimal, with one space between.
pub fn vector_text(alloc: Global, v: &Vector) -> Result<String, Memory>
    ensures { IfOk result (λ s. string_bytes s ≡ text_of_entries v.now) }
{
    let entries = v.entries();
    // Most entries take at most three bytes, and a space or a line feed follows.
    let mut text = String::with_capacity(alloc, entries.len().saturating_mul(4))?;
    for i in 0..entries.len() {
        push_space(&mut text, i)?;
        push_decimal(&mut text, entries[i])?;
    }
    Ok(text)
}

/// The space before an entry that isn't the first.
fn push_space(text: &mut String, place: usize) -> Result<(), Memory>
    ensures { OnOk result (string_bytes text.new ≡ string_bytes text.old ++ space_before place) }
{
    if place == 0 {
        Ok(())
    } else {
        text.push_str(" ")
    }
}

/// A number in decimal.
pub(super) fn push_decimal(text: &mut String, value: i128) -> Result<(), Memory>
    ensures { OnOk result (string_bytes text.new ≡ string_bytes text.old ++ signed_decimal value) }
{
    let mut decimal = Buffer::new();
    text.push_str(decimal.format(value))
}
