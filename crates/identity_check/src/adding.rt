//! Generators that are added on: their y stands in no polynomial but their own.

ghost use Rattle.std.specs.Prelude.{◌≡◌, ◌==◌, ◌≤◌, not, All, IfOk, IsTrue};
ghost use Rattle.std.specs.List.{list_all};
ghost use Rattle.hall_table.specs.Tabled.{last_of};
ghost use Rattle.identity_check.specs.Adding.{IsAddedOn, is_free};
ghost use Rattle.identity_check.specs.Drawing.{AreGenerators};

use crate::Memory;
use binom_poly::{Part, Poly, y_of};
use hall_table::Table;
use std::alloc::Global;

/// Whether a variable stands in no part of a monomial.
fn is_absent(parts: &[Part], v: u32) -> bool
    ensures { result ≡ list_all (λ q. not (q.var == v)) parts.now }
{
    parts.iter().all(|part| part.var != v)
}

/// Whether a variable stands in no term of a polynomial.
fn is_free(poly: &Poly, v: u32) -> bool
    ensures { result ≡ is_free v poly.now }
{
    poly.terms()
        .iter()
        .all(|term| is_absent(term.monomial.parts(), v))
}

/// Whether a generator is added on.
fn is_added_on(table: &Table, m: u32) -> bool
    requires least { table.now.level ≤ m }
    requires most { m ≤ last_of table.now }
    ensures { IsTrue result → IsAddedOn table.now m }
{
    let end = table.last() + 1;
    let v = y_of(m);
    for k in m + 1..end {
        if !is_free(table.lend(k), v) {
            return false;
        }
    }
    true
}

/// The generators that are added on.
pub fn added_on(alloc: Global, table: &Table) -> Result<Vec<u32>, Memory>
    ensures generators { IfOk result (λ ms.
        AreGenerators table.now.level (last_of table.now) ms.items) }
    ensures added { IfOk result (λ ms. All (IsAddedOn table.now) ms.items) }
{
    let mut added = Vec::new(alloc);
    for m in table.level()..table.last() + 1 {
        if is_added_on(table, m) {
            added.push(m)?;
        }
    }
    Ok(added)
}
