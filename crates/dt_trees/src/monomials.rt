//! Monomials of trees.

ghost use Rattle.std.specs.Prelude.{◌≡◌, ◌+◌, ◌*◌, ◌<◌, ◌≤◌, ◌++◌, ℕ, max, length, slice_index, IfErr, OnOk};
ghost use Rattle.nil_num.specs.Outcome.{Gives, Unless};
ghost use Rattle.binom_poly.specs.Fault.{wide_of};
ghost use Rattle.binom_poly.specs.Variable.{side, exponent_limit};
ghost use Rattle.binom_poly.specs.Weight.{HasLargePart};
ghost use Rattle.dt_letters.specs.Arena.{IsTreeOf, letter_in};
ghost use Rattle.dt_trees.specs.Polynomials.{HasTypes, exponent_for, part_at, monomial_of, variable_of};

use binom_poly::{EXPONENT_LIMIT, Monomial, Part, PolyFault, SIDE, x_of, y_of};
use dt_letters::{Form, Letters, Side, Tree};
use std::alloc::Global;

/// How many numbers the variables of both sides have.
const VARIABLES: usize = 2 * SIDE as usize;

/// The variable of a side and a type.
fn variable(side: Side, kind: u32) -> u32
    requires { kind ≤ 48 }
    ensures { result ≡ variable_of side kind }
{
    match side {
        Side::X => x_of(kind),
        Side::Y => y_of(kind),
    }
}

/// Raises the exponents of variables to those in the tree.
fn raise_exponents(letters: &Letters, a: Tree, exponents: &mut [u64])
    requires tree { IsTreeOf letters.now a }
    requires types { HasTypes 48 (letter_in letters.now a) }
    requires variables { length exponents.old ≡ 2 * side }
    ensures { (v : ℕ) → v < 2 * side → slice_index exponents.new v
        ≡ max (slice_index exponents.old v) (exponent_for (letter_in letters.now a) v) }
{
    match letters.form(a) {
        Form::Leaf { side, kind, number } => {
            let place = variable(side, kind) as usize;
            exponents[place] = exponents[place].max(number);
        }
        Form::Node { left, right, .. } => {
            raise_exponents(letters, left, exponents);
            raise_exponents(letters, right, exponents);
        }
    }
}

/// Appends the part of a variable, where its exponent isn't 0.
fn put_part(parts: &mut Vec<Part>, var: u32, exponent: u64) -> Result<(), PolyFault>
    ensures part { OnOk result (parts.new.items ≡ parts.old.items ++ part_at var exponent) }
    ensures fits { OnOk result (exponent ≤ exponent_limit) }
    ensures wide { IfErr result (λ fault. fault ≡ PolyFault.Wide → exponent_limit < exponent) }
{
    if exponent == 0 {
        return Ok(());
    }
    if exponent > EXPONENT_LIMIT as u64 {
        return Err(PolyFault::Wide);
    }
    let exp = exponent as u32;
    parts.push(Part { var, exp })?;
    Ok(())
}

/// The monomial of a tree.
pub(crate) fn monomial(alloc: Global, letters: &Letters, tree: Tree) -> Result<Monomial, PolyFault>
    requires tree { IsTreeOf letters.now tree }
    requires types { HasTypes 48 (letter_in letters.now tree) }
    ensures { Gives wide_of result (Unless (HasLargePart (monomial_of (letter_in letters.now tree)))
        (monomial_of (letter_in letters.now tree))) }
{
    let mut exponents = [0; VARIABLES];
    raise_exponents(letters, tree, &mut exponents);
    let mut parts = Vec::new(alloc);
    for var in 0..VARIABLES {
        put_part(&mut parts, var as u32, exponents[var])?;
    }
    Ok(Monomial::of(parts))
}
