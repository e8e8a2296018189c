//! The texts of places where a value overflows.

ghost use Rattle.std.specs.Prelude.{◌≡◌, ◌++◌, IfOk, OnOk, string_bytes};
ghost use Rattle.session_io.specs.Lines.{as_lines};
ghost use Rattle.compile_text.specs.Lines.{step_text, place_text, wide_line, wide_lines};

use crate::Memory;
use crate::names::{put_name, put_names};
use hall_compile::WidePlace;
use nil_pres::Presentation;
use std::alloc::Global;
use sum_compiler::{SumPlace, SumStep};

/// The place where a value overflows: generators by their names, but by their numbers in a place of
/// a sum plan.
pub fn wide_text(alloc: Global, pres: &Presentation, place: &WidePlace) -> Result<String, Memory>
    ensures { IfOk result (λ text. string_bytes text
        ≡ as_lines (wide_lines pres.now.names place.now)) }
{
    let mut text = String::new(alloc);
    put_wide(&mut text, pres, *place)?;
    text.push_str("\n")?;
    Ok(text)
}

/// Appends a place.
fn put_wide(text: &mut String, pres: &Presentation, place: WidePlace) -> Result<(), Memory>
    ensures { OnOk result (string_bytes text.new
        ≡ string_bytes text.old ++ wide_line pres.now.names place) }
{
    match place {
        WidePlace::Overlap { i, j, k } => {
            text.push_str("wide overlap ")?;
            put_names(text, pres, k, j, i)
        }
        WidePlace::Sum { level, place } => {
            write!(text, "wide sum level {level} ")?;
            put_place(text, place)
        }
        WidePlace::Trees { k } => {
            text.push_str("wide trees ")?;
            put_name(text, pres, k)
        }
    }
}

/// Appends a place of a sum plan.
fn put_place(text: &mut String, place: SumPlace) -> Result<(), Memory>
    ensures { OnOk result (string_bytes text.new ≡ string_bytes text.old ++ place_text place) }
{
    text.push_str(step_word(place.step))?;
    write!(text, " {} {}", place.j, place.k)
}

fn step_word(step: SumStep) -> &'static str
    ensures { result.now ≡ step_text step }
{
    match step {
        SumStep::Power => "power",
        SumStep::Image => "image",
        SumStep::Product => "product",
        SumStep::Last => "last",
    }
}
