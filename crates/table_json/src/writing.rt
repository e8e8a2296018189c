//! Writes table texts.

ghost use Rattle.std.specs.Prelude.{◌≡◌, [], ◌∷◌, ◌++◌, IsTrue, All, IfOk, OnOk, map, string_bytes};
ghost use Rattle.serde_json.specs.View.{view};
ghost use Rattle.binom_poly.specs.Text.{variable_text};
ghost use Rattle.hall_table.specs.Shape.{is_lower};
ghost use Rattle.hall_table.specs.Tabled.{IsTabled, last_of};
ghost use Rattle.table_json.specs.Format.{parts_data, poly_data, table_data, table_text, term_data};
ghost use Rattle.table_json.specs.Saying.{IsTableText};
ghost use Rattle.table_json.specs.TermRules.{IsPart};
ghost use Rattle.table_json.specs.Reading.{HasParts, data_of};

use binom_poly::{Part, Poly, SIDE, Term};
use hall_table::{Memory, Table};
use serde_json::{Value, json};
use std::alloc::Global;

/// The text of a variable.
fn variable_text(alloc: Global, var: u32) -> Result<String, Memory>
    requires { IsTrue (is_lower 1 49 var) }
    ensures { IfOk result (λ s. string_bytes s ≡ variable_text var) }
{
    if var < SIDE {
        format!(in alloc; "x{var}")
    } else {
        let k = var - SIDE;
        format!(in alloc; "y{k}")
    }
}

/// Appends the values of a part.
fn put_part(alloc: Global, values: &mut Vec<Value>, part: Part) -> Result<(), Memory>
    requires { IsTrue (is_lower 1 49 part.var) }
    ensures { OnOk result (data_of values.new.items
        ≡ data_of values.old.items ++ parts_data (part ∷ [])) }
{
    let variable = variable_text(alloc, part.var)?;
    values.push(Value::from(variable))?;
    values.push(Value::from(part.exp))?;
    Ok(())
}

/// Appends the values of parts.
fn put_parts(alloc: Global, values: &mut Vec<Value>, parts: &[Part]) -> Result<(), Memory>
    requires { All (IsPart 48) parts.now }
    ensures { OnOk result (data_of values.new.items
        ≡ data_of values.old.items ++ parts_data parts.now) }
{
    for part in parts {
        put_part(alloc, values, *part)?;
    }
    Ok(())
}

/// The value of a term.
fn term_value(alloc: Global, term: &Term) -> Result<Value, Memory>
    requires { All (IsPart 48) term.now.monomial }
    ensures { IfOk result (λ v. view v ≡ term_data term.now) }
{
    let mut values = Vec::new(alloc);
    let coefficient = term.coefficient.to_string(alloc)?;
    values.push(Value::from(coefficient))?;
    put_parts(alloc, &mut values, term.monomial.parts())?;
    Ok(Value::from(values))
}

/// The value of a polynomial.
fn poly_value(alloc: Global, poly: &Poly) -> Result<Value, Memory>
    requires { All HasParts poly.now }
    ensures { IfOk result (λ v. view v ≡ poly_data poly.now) }
{
    let mut values = Vec::new(alloc);
    for term in poly.terms() {
        let value = term_value(alloc, term)?;
        values.push(value)?;
    }
    Ok(Value::from(values))
}

/// The values of the polynomials.
fn poly_values(alloc: Global, table: &Table) -> Result<Vec<Value>, Memory>
    requires { table.now.level ≡ 1 }
    ensures { IfOk result (λ vs. data_of vs.items ≡ map poly_data table.now.polys) }
{
    let mut values = Vec::new(alloc);
    for k in 1..table.last() + 1 {
        let value = poly_value(alloc, table.lend(k))?;
        values.push(value)?;
    }
    Ok(values)
}

/// The value of a table.
fn table_value(alloc: Global, table: &Table) -> Result<Value, Memory>
    requires { table.now.level ≡ 1 }
    ensures value { IfOk result (λ v. view v ≡ table_data table.now) }
    ensures form { IsTabled table.now }
{
    let n = table.last();
    let polynomials = poly_values(alloc, table)?;
    json!(in alloc; {
        "format": "hall table 1",
        "generators": n,
        "level": 1u32,
        "polynomials": polynomials,
    })
}

/// Writes a table of level 1 as its text.
pub fn write_table(alloc: Global, table: &Table) -> Result<String, Memory>
    requires { table.now.level ≡ 1 }
    ensures text { IfOk result (λ s. string_bytes s ≡ table_text table.now) }
    // What is written says what was written, so it is read as it, and as nothing else.
    ensures again { IfOk result (λ s. IsTableText (last_of table.now) (string_bytes s) table.now) }
{
    let value = table_value(alloc, table)?;
    value.to_string(alloc)
}
