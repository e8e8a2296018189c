//! Lists of polynomials that are put in place of variables.

ghost use Rattle.std.specs.Prelude.{◌≡◌, ◌+◌, ◌≤◌, ◌++◌, ◌∷◌, [], length, map, drop, IfOk, OnOk};
ghost use Rattle.binom_poly.specs.Variable.{step_variable};
ghost use Rattle.sum_compiler.specs.Putting.{in_place, into, to_power};

use crate::Memory;
use binom_poly::{Poly, STEP_VARIABLE, x_of, y_of, z_of};
use poly_subst::Assign;
use std::alloc::Global;

/// Appends what puts polynomials in place of a variable and the next ones.
fn push_all(list: &mut Vec<Assign>, first: u32, polys: Vec<Poly>) -> Result<(), Memory>
    requires { first + length polys.items ≤ 1000 }
    ensures { OnOk result (list.new.items ≡ list.old.items ++ in_place first polys.items) }
{
    let mut var = first;
    for to in polys {
        list.push(Assign { var, to })?;
        var += 1;
    }
    Ok(())
}

/// Puts polynomials in place of the x, and others in place of the y, from a level on.
pub fn into(alloc: Global, level: u32, xs: Vec<Poly>, ys: Vec<Poly>) -> Result<Vec<Assign>, Memory>
    requires level { level ≤ 48 }
    requires x { level + length xs.items ≤ 49 }
    requires y { level + length ys.items ≤ 49 }
    ensures { IfOk result (λ list. list.items ≡ into level xs.items ys.items) }
{
    let mut list = Vec::new(alloc);
    push_all(&mut list, y_of(level), ys)?;
    push_all(&mut list, x_of(level), xs)?;
    Ok(list)
}

/// Puts polynomials in place of the z from a level on, and another in place of t.
pub fn to_power(
    alloc: Global,
    level: u32,
    zs: Vec<Poly>,
    exponent: Poly,
) -> Result<Vec<Assign>, Memory>
    requires level { level ≤ 48 }
    requires z { level + length zs.items ≤ 49 }
    ensures { IfOk result (λ list. list.items ≡ to_power level zs.items exponent) }
{
    let mut list = Vec::new(alloc);
    push_all(&mut list, z_of(level), zs)?;
    list.push(Assign {
        var: STEP_VARIABLE,
        to: exponent,
    })?;
    Ok(list)
}

/// What a list puts in place of its variables, but for the first ones.
pub fn polys_after(alloc: Global, list: Vec<Assign>, count: usize) -> Result<Vec<Poly>, Memory>
    ensures { IfOk result (λ polys. polys.items ≡ map (λ assign. assign.to) (drop count list.items)) }
{
    list.into_iter()
        .skip(count)
        .map(|assign| assign.to)
        .collect(alloc)
}
