//! The text of an overlap whose two ways differ.

ghost use Rattle.std.specs.Prelude.{◌≡◌, ◌++◌, IfOk, OnOk, string_bytes};
ghost use Rattle.word_text.specs.Vectors.{text_of_entries};
ghost use Rattle.session_io.specs.Lines.{as_line, as_lines};
ghost use Rattle.compile_text.specs.Lines.{inconsistent_lines};

use crate::Memory;
use crate::names::put_names;
use nil_pres::Presentation;
use nil_word::Vector;
use overlap_test::Overlap;
use std::alloc::Global;
use word_text::vector_text;

/// The names of an overlap, and the vectors of its two ways.
pub fn inconsistent_text(
    alloc: Global,
    pres: &Presentation,
    overlap: &Overlap,
) -> Result<String, Memory>
    ensures { IfOk result (λ text. string_bytes text
        ≡ as_lines (inconsistent_lines pres.now.names overlap.now)) }
{
    let mut text = String::new(alloc);
    text.push_str("inconsistent ")?;
    put_names(&mut text, pres, overlap.k, overlap.j, overlap.i)?;
    text.push_str("\n")?;
    put_vector(&mut text, alloc, &overlap.left)?;
    put_vector(&mut text, alloc, &overlap.right)?;
    Ok(text)
}

/// Appends a vector as a line.
fn put_vector(text: &mut String, alloc: Global, v: &Vector) -> Result<(), Memory>
    ensures { OnOk result (string_bytes text.new
        ≡ string_bytes text.old ++ as_line (text_of_entries v.now)) }
{
    let entries = vector_text(alloc, v)?;
    text.push_str(entries.as_str())?;
    text.push_str("\n")
}
