//! The shape of a table's polynomials.

ghost use Rattle.std.specs.Prelude.{◌≡◌, ◌+◌, ◌<◌, ◌≤◌, MatchBool};
ghost use Rattle.std.specs.List.{list_all};
ghost use Rattle.binom_poly.specs.Polynomial.{IsPolynomial};
ghost use Rattle.hall_table.specs.Shape.{HasShape, are_lower, coefficient_of, has_shape, is_alone, is_allowed, is_lower};

use super::table::GENERATOR_LIMIT;
use binom_poly::{Part, Poly, Term, y_of};

/// Whether a monomial is one variable.
fn is_alone(parts: &[Part], variable: u32) -> bool
    ensures { result ≡ is_alone variable parts.now }
{
    parts.len() == 1 && parts[0].var == variable && parts[0].exp == 1
}

/// The coefficient of a variable alone.
fn coefficient(terms: &[Term], variable: u32) -> i128
    ensures { result ≡ coefficient_of variable terms.now }
{
    for term in terms {
        if is_alone(term.monomial.parts(), variable) {
            return term.coefficient;
        }
    }
    0
}

/// Whether a variable is one of a generator from the level on and below k.
fn is_lower(level: u32, k: u32, variable: u32) -> bool
    requires most { k ≤ GENERATOR_LIMIT }
    requires level { level ≤ GENERATOR_LIMIT }
    ensures { result ≡ is_lower level k variable }
{
    (level <= variable && variable < k) || (y_of(level) <= variable && variable < y_of(k))
}

/// Whether all variables of a monomial are.
fn are_lower(parts: &[Part], level: u32, k: u32) -> bool
    requires most { k ≤ GENERATOR_LIMIT }
    requires level { level ≤ GENERATOR_LIMIT }
    ensures { result ≡ are_lower level k parts.now }
{
    parts.iter().all(|part| is_lower(level, k, part.var))
}

/// Whether a term may stand in the polynomial of k.
fn is_allowed(term: &Term, level: u32, k: u32) -> bool
    requires most { k ≤ GENERATOR_LIMIT }
    requires level { level ≤ GENERATOR_LIMIT }
    ensures { result ≡ is_allowed level k term.now }
{
    let parts = term.monomial.parts();
    is_alone(parts, k) || is_alone(parts, y_of(k)) || are_lower(parts, level, k)
}

/// Whether all terms may.
fn are_allowed(terms: &[Term], level: u32, k: u32) -> bool
    requires most { k ≤ GENERATOR_LIMIT }
    requires level { level ≤ GENERATOR_LIMIT }
    ensures { result ≡ list_all (is_allowed level k) terms.now }
{
    terms.iter().all(|term| is_allowed(term, level, k))
}

/// The test of the shape.
fn is_shaped(terms: &[Term], level: u32, k: u32) -> bool
    requires most { k ≤ GENERATOR_LIMIT }
    requires level { level ≤ GENERATOR_LIMIT }
    ensures { result ≡ has_shape level k terms.now }
{
    coefficient(terms, k) == 1 && coefficient(terms, y_of(k)) == 1 && are_allowed(terms, level, k)
}

/// Whether a polynomial has the shape of the polynomial of k.
pub fn has_shape(poly: &Poly, level: u32, k: u32) -> bool
    requires most { k ≤ GENERATOR_LIMIT }
    requires level { level ≤ GENERATOR_LIMIT }
    ensures shape { MatchBool result (HasShape level k poly.now) (¬ HasShape level k poly.now) }
    ensures form { IsPolynomial poly.now }
{
    let terms = poly.terms();
    is_shaped(terms, level, k)
}
