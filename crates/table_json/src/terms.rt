//! The terms of a polynomial.

ghost use Rattle.std.specs.Prelude.{◌≡◌, ◌≢◌, ◌≤◌, ◌⊎◌, ℕ, List, ◌∷◌, IfOk, IfErr, MatchOption};
ghost use Rattle.serde_json.specs.Data.{Data, string};
ghost use Rattle.serde_json.specs.View.{view};
ghost use Rattle.table_json.specs.Format.{array_of};
ghost use Rattle.table_json.specs.Refusing.{IsArray, RefusesPoly, SaysPoly};
ghost use Rattle.table_json.specs.TermRules.{RefusesTerm, SaysTerm};
ghost use Rattle.table_json.specs.Reading.{data_of, last_monomial};

use super::decimals::coefficient;
use super::key::Key;
use super::next::next_monomial;
use super::parts::parts;
use super::table_fault::TableFault;
use binom_poly::{Poly, Term};
use serde_json::Value;
use std::alloc::Global;

/// The string at the front of an array, and the values behind it.
fn front(value: &Value) -> Option<(&str, &[Value])>
    ensures { MatchOption result
        ((c : List ℕ) (ds : List Data) → view value.now ≢ array_of (string c ∷ ds))
        (λ r. view value.now ≡ array_of (string r.0.now ∷ data_of r.1.now)) }
{
    let Some(values) = value.as_array() else {
        return None;
    };
    let [first, rest @ ..] = values.as_slice() else {
        return None;
    };
    match first.as_str() {
        Some(text) => Some((text, rest)),
        None => None,
    }
}

/// The term of a value, behind other terms.
fn term(alloc: Global, n: u32, before: &[Term], value: &Value) -> Result<Term, TableFault>
    requires { n ≤ 48 }
    ensures said { IfOk result (SaysTerm n (last_monomial before.now) (view value.now)) }
    ensures refused { IfErr result (λ f. (f ≡ TableFault.Memory)
        ⊎ RefusesTerm n (last_monomial before.now) (view value.now) f) }
{
    let Some((text, rest)) = front(value) else {
        return Err(TableFault::Field(Key::Polynomials));
    };
    let Some(parts) = parts(alloc, n, rest)? else {
        return Err(TableFault::Field(Key::Polynomials));
    };
    let Some(coefficient) = coefficient(text) else {
        return Err(TableFault::Number);
    };
    let Some(monomial) = next_monomial(before, parts) else {
        return Err(TableFault::Order);
    };
    Ok(Term {
        monomial,
        coefficient,
    })
}

/// The polynomial of an array of terms.
pub(super) fn poly(alloc: Global, n: u32, value: &Value) -> Result<Poly, TableFault>
    requires generators { n ≤ 48 }
    requires array { IsArray (view value.now) }
    ensures said { IfOk result (SaysPoly n (view value.now)) }
    ensures refused { IfErr result (λ f. (f ≡ TableFault.Memory)
        ⊎ RefusesPoly n (view value.now) f) }
{
    let Some(values) = value.as_array() else {
        unreachable!();
    };
    let mut terms = Vec::new(alloc);
    for value in values {
        let term = term(alloc, n, terms.as_slice(), value)?;
        terms.push(term)?;
    }
    Ok(Poly::of(terms))
}
