//! The parts of a term: variables and their exponents.

ghost use Rattle.std.specs.Prelude.{◌≡◌, ◌≢◌, ℕ, ◌+◌, ◌<◌, ◌≤◌, List, ◌∷◌, length, IsTrue, MatchOption, IfOk};
ghost use Rattle.serde_json.specs.Data.{number, string, unsigned};
ghost use Rattle.serde_json.specs.View.{view};
ghost use Rattle.binom_poly.specs.declared.part.Part.{Part as SeenPart};
ghost use Rattle.binom_poly.specs.Text.{variable_text};
ghost use Rattle.binom_poly.specs.Variable.{exponent_limit};
ghost use Rattle.hall_table.specs.Shape.{is_lower};
ghost use Rattle.table_json.specs.TermRules.{IsPart};
ghost use Rattle.table_json.specs.Reading.{AreParts, data_of};

use super::decimals::generator;
use binom_poly::{EXPONENT_LIMIT, Part, y_of};
use hall_table::Memory;
use serde_json::Value;
use std::alloc::Global;

/// The variable of a text.
fn variable(n: u32, text: &str) -> Option<u32>
    requires { n ≤ 48 }
    ensures { MatchOption result
        ((v : ℕ) → IsTrue (is_lower 1 (n + 1) v) → text.now ≢ variable_text v)
        (λ v. IsTrue (is_lower 1 (n + 1) v) × (text.now ≡ variable_text v)) }
{
    if let Some(digits) = text.strip_prefix('x') {
        return generator(n, digits);
    }
    let Some(digits) = text.strip_prefix('y') else {
        return None;
    };
    match generator(n, digits) {
        Some(k) => Some(y_of(k)),
        None => None,
    }
}

/// The exponent of a number.
fn exponent(value: &Value) -> Option<u32>
    ensures { MatchOption result
        ((e : ℕ) → 1 ≤ e → e ≤ exponent_limit → view value.now ≢ number (unsigned e))
        (λ e. (1 ≤ e) × (e ≤ exponent_limit) × (view value.now ≡ number (unsigned e))) }
{
    match value.as_u64() {
        Some(e) if 1 <= e && e <= EXPONENT_LIMIT as u64 => Some(e as u32),
        _ => None,
    }
}

/// The part of two values.
fn part(n: u32, variable_value: &Value, exponent_value: &Value) -> Option<Part>
    requires { n ≤ 48 }
    ensures { MatchOption result
        ((p : SeenPart) → IsPart n p → view variable_value.now ≡ string (variable_text p.var)
        → view exponent_value.now ≢ number (unsigned p.exp))
        (λ p. IsPart n p × (view variable_value.now ≡ string (variable_text p.var))
        × (view exponent_value.now ≡ number (unsigned p.exp))) }
{
    let Some(text) = variable_value.as_str() else {
        return None;
    };
    let Some(var) = variable(n, text) else {
        return None;
    };
    let Some(exp) = exponent(exponent_value) else {
        return None;
    };
    Some(Part { var, exp })
}

/// The first two values and those behind them.
fn first_two(values: &[Value]) -> Option<(&Value, &Value, &[Value])>
    ensures { MatchOption result (length values.now < 2)
        (λ r. values.now ≡ r.0.now ∷ r.1.now ∷ r.2.now) }
{
    match values {
        [first, second, rest @ ..] => Some((first, second, rest)),
        _ => None,
    }
}

/// The parts of values, two for each.
pub(super) fn parts(alloc: Global, n: u32, values: &[Value]) -> Result<Option<Vec<Part>>, Memory>
    requires { n ≤ 48 }
    ensures { IfOk result (λ found. MatchOption found
        ((ps : List SeenPart) → ¬ AreParts n (data_of values.now) ps)
        (λ ps. AreParts n (data_of values.now) ps.items)) }
{
    let mut found = Vec::new(alloc);
    let mut rest = values;
    'parts: while let Some((variable_value, exponent_value, more)) = first_two(rest) {
        let Some(part) = part(n, variable_value, exponent_value) else {
            return Ok(None);
        };
        found.push(part)?;
        rest = more;
    }
    if rest.is_empty() {
        Ok(Some(found))
    } else {
        Ok(None)
    }
}
