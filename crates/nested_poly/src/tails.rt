//! The terms of polynomials as tails.

ghost use Rattle.std.specs.Prelude.{◌≡◌, ◌∷◌, [], All, IfOk};
ghost use Rattle.binom_poly.specs.Polynomial.{IsPolynomial};
ghost use Rattle.nested_poly.specs.Nodes.{constant_term, IsNestOf};
ghost use Rattle.nested_poly.specs.Tails.{tail_terms, HasPart, HaveParts};

use crate::tail::Tail;
use binom_poly::{Memory, Term};
use std::alloc::Global;
use std::cmp::Ordering;

/// The constant of a polynomial, 0 where there is none, and the other terms.
pub fn split_constant(terms: &[Term]) -> (i128, &[Term])
    requires { IsPolynomial terms.now }
    ensures terms { IsNestOf (constant_term result.0 ∷ result.1.now) terms.now }
    ensures parts { HaveParts result.1.now }
{
    match terms.split_first() {
        Some((first, rest)) if first.monomial.parts().is_empty() => (first.coefficient, rest),
        _ => (0, terms),
    }
}

/// The terms as tails, in their order.
fn unsorted_tails<'a>(alloc: Global, terms: &'a [Term]) -> Result<Vec<Tail<'a>>, Memory>
    requires { HaveParts terms.now }
    ensures terms { IfOk result (λ tails. tail_terms tails.items ≡ terms.now) }
    ensures parts { IfOk result (λ tails. All HasPart tails.items) }
{
    let mut tails = Vec::with_capacity(alloc, terms.len())?;
    for term in terms {
        tails.push(Tail {
            parts: term.monomial.parts(),
            coefficient: term.coefficient,
        })?;
    }
    Ok(tails)
}

/// The order by the parts from the last one back. Terms that end alike stand together in it.
fn compare_ends(a: &Tail, b: &Tail) -> Ordering {
    a.parts.iter().rev().cmp(b.parts.iter().rev())
}

/// The terms as tails, those that end alike together.
pub fn tails_of<'a>(alloc: Global, terms: &'a [Term]) -> Result<Vec<Tail<'a>>, Memory>
    requires { HaveParts terms.now }
    ensures terms { IfOk result (λ tails. IsNestOf (tail_terms tails.items) terms.now) }
    ensures parts { IfOk result (λ tails. All HasPart tails.items) }
{
    let mut tails = unsorted_tails(alloc, terms)?;
    tails.sort_unstable_by(|a, b| compare_ends(a, b));
    Ok(tails)
}
