//! Constants of trees: products of binomial coefficients of exponents.

ghost use Rattle.std.specs.Prelude.{◌≡◌, ◌≢◌, ◌+◌, ◌≤◌, ◌⊎◌, All, pos, length, ◌*ℤ◌, unsigned_abs};
ghost use Rattle.nil_num.specs.Bound.{Overflows};
ghost use Rattle.nil_num.specs.Outcome.{Gives, Unless};
ghost use Rattle.binom_poly.specs.Fault.{wide_of};
ghost use Rattle.binom_poly.specs.Variable.{exponent_limit};
ghost use Rattle.dt_letters.specs.Letters.{group_of};
ghost use Rattle.dt_letters.specs.Allowed.{exponents_of, IsLetter};
ghost use Rattle.dt_letters.specs.Terms.{factor, product_over, constant};
ghost use Rattle.dt_letters.specs.Arena.{IsTreeOf, letter_in};
ghost use Rattle.dt_trees.specs.Polynomials.{groups_over, FactorOverflows, SomeOverflows, ConstantOverflows};

use crate::grouping::put_groups;
use binom_poly::{EXPONENT_LIMIT, PolyFault};
use dt_letters::{Form, Letters, Tree};
use nil_num::{Past, binomial};
use std::alloc::Global;

/// The product, where it isn't too large.
fn times(a: i128, b: i128) -> Result<i128, Past>
    ensures { Unless (Overflows (unsigned_abs (a *ℤ b))) (a *ℤ b) result }
{
    match a.checked_mul(b) {
        Some(product) if product != i128::MIN => Ok(product),
        _ => Err(Past),
    }
}

/// The factor of the group of a member.
fn factor(letters: &Letters, tree: Tree, member: Tree) -> Result<i128, Past>
    requires tree { IsTreeOf letters.now tree }
    requires member { IsTreeOf letters.now member }
    ensures { let e = exponents_of letters.now.pres in let t = letter_in letters.now tree in
        let g = group_of (letter_in letters.now member) in
        Unless (FactorOverflows e t g) (factor e t g) result }
{
    let Form::Node {
        left,
        right,
        kind,
        ..
    } = letters.form(member)
    else {
        return Ok(1);
    };
    let most = letters.greatest(tree, member);
    if most > EXPONENT_LIMIT as u64 {
        return Err(Past);
    }
    let exponent = letters.exponent(letters.kind(right), letters.kind(left), kind);
    binomial(i128::from(exponent), most as u32)
}

/// The product of the factors of the groups of members.
fn product(letters: &Letters, tree: Tree, members: &[Tree]) -> Result<i128, Past>
    requires tree { IsTreeOf letters.now tree }
    requires members { All (IsTreeOf letters.now) members.now }
    requires nonzero { All (λ g. factor (exponents_of letters.now.pres)
        (letter_in letters.now tree) g ≢ pos 0) (groups_over letters.now members.now) }
    ensures { let e = exponents_of letters.now.pres in let t = letter_in letters.now tree in
        let gs = groups_over letters.now members.now in
        Unless (SomeOverflows e t gs ⊎ Overflows (unsigned_abs (product_over e t gs)))
        (product_over e t gs) result }
{
    let mut product = 1;
    for member in members {
        product = times(factor(letters, tree, *member)?, product)?;
    }
    Ok(product)
}

/// The constant of a tree.
pub(crate) fn constant(alloc: Global, letters: &Letters, tree: Tree) -> Result<i128, PolyFault>
    requires tree { IsTreeOf letters.now tree }
    requires letter { IsLetter (exponents_of letters.now.pres) (letter_in letters.now tree) }
    ensures { let e = exponents_of letters.now.pres in let t = letter_in letters.now tree in
        Gives wide_of result (Unless
        (ConstantOverflows e t ⊎ Overflows (unsigned_abs (constant e t))) (constant e t)) }
{
    let mut members = Vec::new(alloc);
    put_groups(letters, tree, &mut members)?;
    Ok(product(letters, tree, &members)?)
}
