//! Terms that are 0 where a last generator is multiplied on, by their last two parts.

ghost use Rattle.std.specs.Prelude.{◌≡◌, ◌<◌, ◌≤◌, All, IsTrue, length};
ghost use Rattle.hall_table.specs.Tabled.{last_of};
ghost use Rattle.identity_check.specs.Crossing.{AllCross, Crosses};

use binom_poly::{Part, SIDE, Term, y_of};
use hall_table::Table;

/// Whether a monomial of `f_k` is `x_k` or `y_k`, or has in its last part a `y_j`, with an exponent
/// above 1 or behind a variable above `x_j`.
fn crosses(parts: &[Part], k: u32) -> bool
    requires { k ≤ 48 }
    ensures { IsTrue result → Crosses k parts.now }
{
    let count = parts.len();
    if count == 0 {
        return false;
    }
    let last = parts[count - 1];
    if last.var == k || last.var == y_of(k) {
        return true;
    }
    if last.var < SIDE {
        return false;
    }
    if last.exp > 1 {
        return true;
    }
    count > 1 && last.var - SIDE < parts[count - 2].var
}

/// Whether each of these terms of `f_k` does.
fn all_cross_in(terms: &[Term], k: u32) -> bool
    requires { k ≤ 48 }
    ensures { IsTrue result → All (λ u. Crosses k u.monomial) terms.now }
{
    for term in terms {
        if !crosses(term.monomial.parts(), k) {
            return false;
        }
    }
    true
}

/// Whether each term of each polynomial does.
pub fn all_cross(table: &Table) -> bool
    ensures { IsTrue result → AllCross table.now }
{
    for k in table.level()..table.last() + 1 {
        if !all_cross_in(table.lend(k).terms(), k) {
            return false;
        }
    }
    true
}
