//! Terms that aren't 0 where two generators are multiplied: there the relation has an entry.

ghost use Rattle.std.specs.Prelude.{◌≡◌, ◌≢◌, ◌⊎◌, ◌<◌, ◌≤◌, ℕ, pos, length, All, IsTrue};
ghost use Rattle.nil_pres.specs.Relations.{relations_of};
ghost use Rattle.binom_poly.specs.Monomial.{IsMonomial};
ghost use Rattle.binom_poly.specs.Polynomial.{IsPolynomial};
ghost use Rattle.binom_poly.specs.Variable.{y_of};
ghost use Rattle.hall_table.specs.Tabled.{last_of};
ghost use Rattle.identity_check.specs.Sides.{entry_of_pair};
ghost use Rattle.identity_check.specs.Meeting.{AllTold, IsTold};

use crate::pairs::entry_of_pair;
use binom_poly::{Part, SIDE, Term, y_of};
use hall_table::Table;
use nil_pres::Presentation;

/// Whether two variables, if they are the `x_l` and the `y_j` of a pair, are so of one whose
/// relation has something at entry k.
fn is_entered(pres: &Presentation, k: u32, x: u32, y: u32) -> bool
    requires least { 1 ≤ k }
    requires most { k ≤ length pres.now.names }
    ensures { IsTrue result → (j l : ℕ) → 1 ≤ j → j < l → l ≤ length pres.now.names → x ≡ l
        → y ≡ y_of j → entry_of_pair (relations_of pres.now) j l k ≢ pos 0 }
{
    if y <= SIDE {
        return true;
    }
    let j = y - SIDE;
    if x <= j || x > pres.count() {
        return true;
    }
    entry_of_pair(pres, j, x, k) != 0
}

/// Whether a part is `x_k` or `y_k`, or has an exponent above 1.
fn is_own_or_often(part: Part, k: u32) -> bool
    requires { k ≤ 48 }
    ensures { IsTrue result → (1 < part.exp) ⊎ ((part.var ≡ k) ⊎ (part.var ≡ y_of k)) }
{
    part.exp > 1 || part.var == k || part.var == y_of(k)
}

/// Whether a monomial of `f_k` is 0 at each pair whose relation has 0 at entry k.
fn is_told(pres: &Presentation, k: u32, parts: &[Part]) -> bool
    requires form { IsMonomial parts.now }
    requires least { 1 ≤ k }
    requires most { k ≤ length pres.now.names }
    ensures { IsTrue result → IsTold (relations_of pres.now) (length pres.now.names) k parts.now }
{
    let _ = pres.count();
    match parts.len() {
        0 => false,
        1 => is_own_or_often(parts[0], k),
        2 => is_entered(pres, k, parts[0].var, parts[1].var),
        // Of three variables one is that of neither generator.
        _ => true,
    }
}

/// Whether each of these terms of `f_k` is.
fn all_told_in(pres: &Presentation, terms: &[Term], k: u32) -> bool
    requires form { IsPolynomial terms.now }
    requires least { 1 ≤ k }
    requires most { k ≤ length pres.now.names }
    ensures { IsTrue result
        → All (λ u. IsTold (relations_of pres.now) (length pres.now.names) k u.monomial) terms.now }
{
    for term in terms {
        if !is_told(pres, k, term.monomial.parts()) {
            return false;
        }
    }
    true
}

/// Whether each term of each polynomial is.
pub fn all_told(pres: &Presentation, table: &Table) -> bool
    requires { last_of table.now ≡ length pres.now.names }
    ensures { IsTrue result → AllTold (relations_of pres.now) table.now }
{
    for k in table.level()..table.last() + 1 {
        if !all_told_in(pres, table.lend(k).terms(), k) {
            return false;
        }
    }
    true
}
