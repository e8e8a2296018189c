//! The greatest exponents in polynomials, of all variables at once.

ghost use Rattle.std.specs.Prelude.{◌≡◌, ◌+◌, ◌≤◌, ℕ, max, length, slice_index};
ghost use Rattle.binom_poly.specs.Variable.{exponent_limit, step_variable};
ghost use Rattle.binom_poly.specs.Monomial.{IsMonomial, exponent_of};
ghost use Rattle.binom_poly.specs.Exponents.{greatest, greatest_in};

use crate::part::Part;
use crate::poly::Poly;
use crate::variable::VARIABLES;

/// Raises tops, by variable, to the exponents of a monomial.
fn raise_to(tops: &mut [u32], parts: &[Part])
    requires length { length tops.old ≡ step_variable + 1 }
    requires form { IsMonomial parts.now }
    ensures { (v : ℕ) → slice_index tops.new v
        ≡ max (slice_index tops.old v) (exponent_of parts.now v) }
{
    for part in parts {
        let place = part.var as usize;
        tops[place] = tops[place].max(part.exp);
    }
}

/// Raises tops, by variable, to the exponents of a polynomial.
fn raise_to_all(tops: &mut [u32], p: &Poly)
    requires { length tops.old ≡ step_variable + 1 }
    ensures raised { (v : ℕ) → slice_index tops.new v
        ≡ max (slice_index tops.old v) (greatest v p.now) }
    ensures small { (v : ℕ) → greatest v p.now ≤ exponent_limit }
{
    for term in p.terms() {
        raise_to(tops, term.monomial.parts());
    }
}

/// The greatest exponent of each variable in a polynomial: 0 where it does not occur.
pub fn greatest_exponents(p: &Poly) -> [u32; VARIABLES]
    ensures greatest { (v : ℕ) → slice_index result v ≡ greatest v p.now }
    ensures small { (v : ℕ) → greatest v p.now ≤ exponent_limit }
{
    let mut tops = [0u32; VARIABLES];
    raise_to_all(&mut tops, p);
    tops
}

/// The greatest exponent of each variable in polynomials: 0 where it does not occur.
pub fn greatest_exponents_in(polys: &[Poly]) -> [u32; VARIABLES]
    ensures greatest { (v : ℕ) → slice_index result v ≡ greatest_in v polys.now }
    ensures small { (v : ℕ) → greatest_in v polys.now ≤ exponent_limit }
{
    let mut tops = [0u32; VARIABLES];
    for poly in polys {
        raise_to_all(&mut tops, poly);
    }
    tops
}

/// The exponent of one variable among those: 0 where it has no place.
pub fn top_of(tops: &[u32], v: u32) -> u32
    ensures { result ≡ slice_index tops.now v }
{
    match tops.get(v as usize) {
        Some(top) => *top,
        None => 0,
    }
}
