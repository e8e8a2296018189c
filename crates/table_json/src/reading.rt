//! Reads table texts.

ghost use Rattle.std.specs.Prelude.{◌≡◌, ◌≤◌, ◌⊎◌, IfOk, IfErr, MatchResult};
ghost use Rattle.serde_json.specs.Data.{Data};
ghost use Rattle.serde_json.specs.View.{view};
ghost use Rattle.hall_table.specs.Tabled.{Tabled};
ghost use Rattle.table_json.specs.declared.table_fault.TableFault.{TableFault as Fault};
ghost use Rattle.table_json.specs.Saying.{IsJson, IsTableText, SaysTable};
ghost use Rattle.table_json.specs.Refusing.{IsFirstRefusal, RefusesTable};

use super::heads::wrong_head;
use super::key::Key;
use super::polynomials::{polynomial_values, polys, shaped};
use super::table_fault::TableFault;
use hall_table::Table;
use serde_json::Value;
use std::alloc::Global;

/// The value of a JSON text.
fn json(alloc: Global, bytes: &[u8]) -> Result<Value, TableFault>
    ensures value { IfOk result (λ v. IsJson bytes.now (view v)) }
    ensures refused { IfErr result (λ f. (f ≡ TableFault.Memory)
        ⊎ ((f ≡ TableFault.Json) × ((d : Data) → ¬ IsJson bytes.now d))) }
{
    match Value::from_slice(alloc, bytes) {
        Ok(value) => Ok(value),
        Err(fault) => if fault.is_memory() {
            Err(TableFault::Memory)
        } else {
            Err(TableFault::Json)
        },
    }
}

/// The table that a value says.
fn said(alloc: Global, n: u32, value: &Value) -> Result<Table, TableFault>
    requires least { 1 ≤ n }
    requires most { n ≤ 48 }
    ensures said { IfOk result (SaysTable n (view value.now)) }
    ensures refused { IfErr result (λ f. (f ≡ TableFault.Memory)
        ⊎ RefusesTable n (view value.now) f) }
{
    if let Some(key) = wrong_head(value, n) {
        return Err(TableFault::Field(key));
    }
    let Some(values) = polynomial_values(value, n) else {
        return Err(TableFault::Field(Key::Polynomials));
    };
    let polys = polys(alloc, n, values)?;
    shaped(alloc, polys)
}

/// Reads the text of a table of level 1 with n generators, from 1 to 48. The first fault is named,
/// by the order in which the format tries its rules.
pub fn read_table(alloc: Global, bytes: &[u8], n: u32) -> Result<Table, TableFault>
    requires least { 1 ≤ n }
    requires most { n ≤ 48 }
    // What is read is what the text says.
    ensures read { IfOk result (IsTableText n bytes.now) }
    // What a text says is read, unless memory runs out.
    ensures only { (t : Tabled) → IsTableText n bytes.now t
        → MatchResult result (λ u. u ≡ t) (λ f. f ≡ TableFault.Memory) }
    // A fault is the first refusal, or memory ran out.
    ensures fault { IfErr result (λ f. (f ≡ TableFault.Memory) ⊎ IsFirstRefusal n bytes.now f) }
    // A text with a first refusal is refused with it, unless memory runs out.
    ensures only_fault { (f : Fault) → IsFirstRefusal n bytes.now f
        → MatchResult result (λ _. ⊥) (λ g. (g ≡ TableFault.Memory) ⊎ (g ≡ f)) }
{
    let value = json(alloc, bytes)?;
    said(alloc, n, &value)
}
