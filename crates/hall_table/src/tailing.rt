//! Polynomials with lower variables set to 0.

ghost use Rattle.std.specs.Prelude.{◌≡◌, ◌≤◌, ℕ, ℤ, IfOk};
ghost use Rattle.binom_poly.specs.Polynomial.{IsPolynomial};
ghost use Rattle.hall_table.specs.Tail.{from_level, is_from, is_kept};

use super::Memory;
use super::table::GENERATOR_LIMIT;
use binom_poly::{Part, Poly, Term, y_of};
use std::alloc::Global;

/// Whether a variable is one of a generator from the level on.
fn is_from(level: u32, variable: u32) -> bool
    requires { level ≤ GENERATOR_LIMIT }
    ensures { result ≡ is_from level variable }
{
    (level <= variable && variable < y_of(0)) || y_of(level) <= variable
}

/// Whether all variables of a monomial are.
fn is_kept(parts: &[Part], level: u32) -> bool
    requires { level ≤ GENERATOR_LIMIT }
    ensures { result ≡ is_kept level parts.now }
{
    parts.iter().all(|part| is_from(level, part.var))
}

/// The polynomial with the variables below a level set to 0.
pub fn from_level(alloc: Global, poly: &Poly, level: u32) -> Result<Poly, Memory>
    requires { level ≤ GENERATOR_LIMIT }
    ensures { IfOk result (λ p. p ≡ from_level level poly.now) }
{
    let mut kept = Vec::new(alloc);
    for term in poly.terms() {
        if is_kept(term.monomial.parts(), level) {
            let monomial = term.monomial.copy(alloc)?;
            kept.push(Term {
                monomial,
                coefficient: term.coefficient,
            })?;
        }
    }
    Ok(Poly::of(kept))
}
