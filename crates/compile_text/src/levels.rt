//! The text of a presentation that is compiled.

ghost use Rattle.std.specs.Prelude.{◌≡◌, [], ◌∷◌, ◌++◌, IfOk, OnOk, string_bytes};
ghost use Rattle.session_io.specs.Lines.{as_line, as_lines};
ghost use Rattle.compile_text.specs.Lines.{reason_text, asked_line, asked_lines, origin_text, origin_line, level_lines, levels_lines, compiled_lines};

use crate::Memory;
use hall_compile::{Asked, Compiled, Origin, Reason};
use std::alloc::Global;

/// That the presentation is consistent, and for each level, from the last one down, who was asked
/// in vain and where the table comes from.
pub fn compiled_text(alloc: Global, compiled: &Compiled) -> Result<String, Memory>
    ensures { IfOk result (λ text. string_bytes text ≡ as_lines (compiled_lines compiled.now)) }
{
    let mut text = String::new(alloc);
    text.push_str("consistent\n")?;
    put_levels(&mut text, compiled.asked.as_slice(), compiled.by.as_slice())?;
    Ok(text)
}

/// Appends the lines of the levels, the last origin being that of level 1.
fn put_levels(text: &mut String, asked: &[Asked], by: &[Origin]) -> Result<(), Memory>
    ensures { OnOk result (string_bytes text.new
        ≡ string_bytes text.old ++ as_lines (levels_lines asked.now by.now)) }
{
    let mut level = by.len();
    'levels: for origin in by {
        put_level(text, asked, level, *origin)?;
        level -= 1;
    }
    Ok(())
}

/// Appends the lines of a level.
fn put_level(text: &mut String, asked: &[Asked], level: usize, origin: Origin) -> Result<(), Memory>
    ensures { OnOk result (string_bytes text.new
        ≡ string_bytes text.old ++ as_lines (level_lines asked.now level origin)) }
{
    put_all_asked(text, asked, level)?;
    put_origin_line(text, level, origin)
}

/// Appends the lines of those that were asked for a level.
fn put_all_asked(text: &mut String, asked: &[Asked], level: usize) -> Result<(), Memory>
    ensures { OnOk result (string_bytes text.new
        ≡ string_bytes text.old ++ as_lines (asked_lines level asked.now)) }
{
    'asked: for one in asked {
        put_if_asked(text, one, level)?;
    }
    Ok(())
}

/// Appends the line of one that was asked, where that was for this level.
fn put_if_asked(text: &mut String, one: &Asked, level: usize) -> Result<(), Memory>
    ensures { OnOk result (string_bytes text.new
        ≡ string_bytes text.old ++ as_lines (asked_lines level (one.now ∷ []))) }
{
    if one.level as usize == level {
        put_asked(text, one)
    } else {
        Ok(())
    }
}

/// Appends the line of one that was asked.
fn put_asked(text: &mut String, one: &Asked) -> Result<(), Memory>
    ensures { OnOk result (string_bytes text.new
        ≡ string_bytes text.old ++ as_line (asked_line one.now)) }
{
    write!(text, "level {} asked {} ", one.level, one.label)?;
    put_reason(text, &one.reason)?;
    text.push_str("\n")
}

/// Appends why a table isn't taken.
fn put_reason(text: &mut String, reason: &Reason) -> Result<(), Memory>
    ensures { OnOk result (string_bytes text.new
        ≡ string_bytes text.old ++ reason_text reason.now) }
{
    match reason {
        Reason::NoTable => text.push_str("none"),
        Reason::WrongLevel => text.push_str("wrong level"),
        Reason::Refused(failure) => write!(text, "refused {}", failure.identity),
        Reason::Wide(identity) => write!(text, "wide {identity}"),
    }
}

/// Appends the line of where the table of a level comes from.
fn put_origin_line(text: &mut String, level: usize, origin: Origin) -> Result<(), Memory>
    ensures { OnOk result (string_bytes text.new
        ≡ string_bytes text.old ++ as_line (origin_line level origin)) }
{
    write!(text, "level {level} ")?;
    put_origin(text, origin)?;
    text.push_str("\n")
}

/// Appends where a table comes from.
fn put_origin(text: &mut String, origin: Origin) -> Result<(), Memory>
    ensures { OnOk result (string_bytes text.new ≡ string_bytes text.old ++ origin_text origin) }
{
    match origin {
        Origin::Base => text.push_str("base"),
        Origin::Proposer(label) => write!(text, "proposer {label}"),
        Origin::Sum => text.push_str("sum"),
    }
}
