//! The keys that stand before the polynomials.

ghost use Rattle.std.specs.Prelude.{◌≡◌, ◌↔◌, Some, IsTrue, MatchOption};
ghost use Rattle.serde_json.specs.Data.{number, string, unsigned};
ghost use Rattle.serde_json.specs.Find.{get};
ghost use Rattle.serde_json.specs.View.{view};
ghost use Rattle.table_json.specs.Saying.{HasHeads};
ghost use Rattle.table_json.specs.Refusing.{RefusesTable};

use super::key::Key;
use super::table_fault::TableFault;
use serde_json::Value;

/// Whether the value at a key is this string.
fn has_text(value: &Value, key: &str, text: &str) -> bool
    ensures { IsTrue result ↔ (get key.now (view value.now) ≡ Some (string text.now)) }
{
    match value.get(key).and_then(Value::as_str) {
        Some(found) => found == text,
        None => false,
    }
}

/// Whether the value at a key is this number, without fraction and exponent.
fn has_number(value: &Value, key: &str, n: u64) -> bool
    ensures { IsTrue result ↔ (get key.now (view value.now) ≡ Some (number (unsigned n))) }
{
    match value.get(key).and_then(Value::as_u64) {
        Some(found) => found == n,
        None => false,
    }
}

/// The first key before the polynomials that isn't as the format says.
pub(super) fn wrong_head(value: &Value, n: u32) -> Option<Key>
    ensures { MatchOption result (HasHeads n (view value.now))
        (λ key. RefusesTable n (view value.now) (TableFault.Field key)) }
{
    if !has_text(value, "format", "hall table 1") {
        return Some(Key::Format);
    }
    if !has_number(value, "generators", n as u64) {
        return Some(Key::Generators);
    }
    if !has_number(value, "level", 1) {
        return Some(Key::Level);
    }
    None
}
