//! The texts of failures.

ghost use Rattle.std.specs.Prelude.{◌≡◌, ◌++◌, OnOk, string_bytes};
ghost use Rattle.binom_poly.specs.Text.{variable_text};
ghost use Rattle.identity_check.specs.Texts.{failure_text, more_values, point_text, value_text};

use crate::Memory;
use crate::failure::{At, Failure};
use binom_poly::{SIDE, STEP_VARIABLE};

/// Appends a variable.
fn put_variable(text: &mut String, var: u32) -> Result<(), Memory>
    ensures { OnOk result (string_bytes text.new ≡ string_bytes text.old ++ variable_text var) }
{
    if var == STEP_VARIABLE {
        return text.push_str("t");
    }
    let number = var % SIDE;
    if var < SIDE {
        write!(text, "x{number}")
    } else if var < 2 * SIDE {
        write!(text, "y{number}")
    } else {
        write!(text, "z{number}")
    }
}

/// Appends a variable and its value.
fn put_value(text: &mut String, at: At) -> Result<(), Memory>
    ensures { OnOk result (string_bytes text.new ≡ string_bytes text.old ++ value_text at) }
{
    put_variable(text, at.var)?;
    write!(text, "={}", at.value)
}

/// Appends a point.
fn put_point(text: &mut String, point: &[At]) -> Result<(), Memory>
    ensures { OnOk result (string_bytes text.new ≡ string_bytes text.old ++ point_text point.now) }
{
    if point.is_empty() {
        return text.push_str("none");
    }
    let (first, rest) = point.split_at(1);
    put_value(text, first[0])?;
    for at in rest {
        text.push_str(" ")?;
        put_value(text, *at)?;
    }
    Ok(())
}

/// Appends a failure: its identity, its point, and the two numbers.
pub fn put_failure(text: &mut String, failure: &Failure) -> Result<(), Memory>
    ensures { OnOk result (string_bytes text.new
        ≡ string_bytes text.old ++ failure_text failure.now) }
{
    write!(text, "{} at ", failure.identity)?;
    put_point(text, failure.point.as_slice())?;
    write!(text, " left {} right {}", failure.left, failure.right)
}
