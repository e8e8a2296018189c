//! The order of monomials.

ghost use Rattle.std.specs.Prelude.{◌≡◌, ◌≤◌, ◌↔◌, IsTrue, All, MatchOption};
ghost use Rattle.table_json.specs.TermRules.{Ascend, IsBehind, IsNext, IsPart};
ghost use Rattle.table_json.specs.Reading.{last_monomial};

use binom_poly::{Monomial, Part, Term};

/// Whether variables ascend.
fn ascend(parts: &[Part]) -> bool
    ensures { IsTrue result ↔ Ascend 0 parts.now }
{
    let mut low = 0;
    for part in parts {
        if part.var <= low {
            return false;
        }
        low = part.var;
    }
    true
}

/// Whether a monomial comes behind the last of the terms.
fn is_behind(terms: &[Term], monomial: &Monomial) -> bool
    ensures { IsTrue result ↔ IsBehind (last_monomial terms.now) monomial.now }
{
    match terms.last() {
        Some(last) => last.monomial.before(monomial),
        None => true,
    }
}

/// The monomial of parts, where it is one and comes behind the last of the terms.
pub(super) fn next_monomial(terms: &[Term], parts: Vec<Part>) -> Option<Monomial>
    requires { All (IsPart 48) parts.items }
    ensures { MatchOption result (¬ IsNext (last_monomial terms.now) parts.items)
        (λ m. (m ≡ parts.items) × IsNext (last_monomial terms.now) parts.items) }
{
    if !ascend(parts.as_slice()) {
        return None;
    }
    let monomial = Monomial::of(parts);
    if is_behind(terms, &monomial) {
        Some(monomial)
    } else {
        None
    }
}
