//! Polynomials of trees.

ghost use Rattle.std.specs.Prelude.{◌≡◌, ◌+◌, ◌⊎◌, [], ◌∷◌, ◌++◌, ℕ, ℤ, List, All, map, length, IfOk, IfErr};
ghost use Rattle.nil_num.specs.Outcome.{Gives, Unless};
ghost use Rattle.binom_poly.specs.Fault.{wide_of};
ghost use Rattle.binom_poly.specs.Variable.{exponent_limit};
ghost use Rattle.binom_poly.specs.Collected.{collected};
ghost use Rattle.binom_poly.specs.Polynomial.{value_of};
ghost use Rattle.binom_poly.specs.Sums.{Holds};
ghost use Rattle.binom_poly.specs.Weight.{DoOverflow};
ghost use Rattle.binom_poly.specs.declared.term.Term.{Term};
ghost use Rattle.dt_letters.specs.Allowed.{exponents_of};
ghost use Rattle.dt_letters.specs.Arena.{IsTreeOf, letter_in};
ghost use Rattle.dt_trees.specs.Polynomials.{IsOver, term_of, terms_of, ConstantOverflows, TreesOverflow};

use crate::constants::constant;
use crate::monomials::monomial;
use binom_poly::{Accumulator, Poly, PolyFault};
use dt_letters::{Letters, Tree};
use std::alloc::Global;

/// Adds the term of a tree.
fn add_term(
    alloc: Global,
    letters: &Letters,
    tree: Tree,
    sums: Accumulator,
) -> Result<Accumulator, PolyFault>
    requires tree { IsTreeOf letters.now tree }
    requires over { IsOver (exponents_of letters.now.pres) (length letters.now.pres.names)
        (letter_in letters.now tree) }
    ensures holds { IfOk result (λ more. (cs : List Term) → Holds sums cs → Holds more
        (cs ++ term_of (exponents_of letters.now.pres) (letter_in letters.now tree) ∷ [])) }
    ensures fits { IfOk result (λ _. ¬ ConstantOverflows (exponents_of letters.now.pres)
        (letter_in letters.now tree)) }
    ensures wide { IfErr result (λ fault. fault ≡ PolyFault.Wide → (cs : List Term)
        → Holds sums cs
        → ConstantOverflows (exponents_of letters.now.pres) (letter_in letters.now tree)
        ⊎ DoOverflow
        (cs ++ term_of (exponents_of letters.now.pres) (letter_in letters.now tree) ∷ [])) }
{
    let _generators = letters.pres().count();
    let coefficient = constant(alloc, letters, tree)?;
    let monomial = monomial(alloc, letters, tree)?;
    sums.add(alloc, &monomial, coefficient)
}

/// The polynomial of trees: the sum of their terms.
pub fn tree_poly(alloc: Global, letters: &Letters, trees: &[Tree]) -> Result<Poly, PolyFault>
    requires trees { All (IsTreeOf letters.now) trees.now }
    requires over { All (IsOver (exponents_of letters.now.pres) (length letters.now.pres.names))
        (map (letter_in letters.now) trees.now) }
    ensures poly { let e = exponents_of letters.now.pres in
        let ts = map (letter_in letters.now) trees.now in
        Gives wide_of result (Unless (TreesOverflow e ts) (collected (terms_of e ts))) }
    ensures value { IfOk result (λ p. (a : ℕ → ℤ) → value_of a p
        ≡ value_of a (terms_of (exponents_of letters.now.pres)
        (map (letter_in letters.now) trees.now))) }
{
    let mut sums = Accumulator::new(alloc);
    for tree in trees {
        sums = add_term(alloc, letters, *tree, sums)?;
    }
    Ok(sums.into_poly(alloc)?)
}
