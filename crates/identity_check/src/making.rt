//! The polynomials of the sides.

ghost use Rattle.std.specs.Prelude.{◌≡◌, ◌≤◌, All, IfOk};
ghost use Rattle.binom_poly.specs.Monomial.{IsVariable};
ghost use Rattle.binom_poly.specs.Variable.{y_of};
ghost use Rattle.poly_subst.specs.Renaming.{without};
ghost use Rattle.poly_subst.specs.Substitute.{SubstituteOverflows, substituted};
ghost use Rattle.poly_subst.specs.Walk.{by_number, step_of};
ghost use Rattle.identity_check.specs.Sides.{last_added};
ghost use Rattle.identity_check.specs.Signs.{number_of};
ghost use Rattle.identity_check.specs.Halts.{Makes};

use crate::halt::{Halt, named};
use crate::identity::Identity;
use binom_poly::{Memory, Poly, add, constant, var, x_of, y_of, zero};
use poly_subst::{Assign, Substitution, set_zero};
use std::alloc::Global;

/// The number that is put in place of `y_j`: 1, or -1 for the inverse.
fn number_of(up: bool) -> i128
    ensures { result ≡ number_of up }
{
    if up { 1 } else { -1 }
}

/// What puts that number in place of `y_j`.
pub fn by_number(alloc: Global, j: u32, up: bool) -> Result<Substitution, Memory>
    requires least { 1 ≤ j }
    requires most { j ≤ 48 }
    ensures { IfOk result (λ put. put ≡ by_number (y_of j) (number_of up)) }
{
    let to = constant(alloc, number_of(up))?;
    let mut list = Vec::new(alloc);
    list.push(Assign { var: y_of(j), to })?;
    Substitution::new(alloc, list)
}

/// A polynomial with others in place of variables, for an identity.
pub fn put_in(
    alloc: Global,
    identity: Identity,
    p: &Poly,
    put: &mut Substitution,
) -> Result<Poly, Halt>
    ensures made { Makes identity (SubstituteOverflows p.now put.old) (substituted p.now put.old)
        result }
    ensures kept { put.new ≡ put.old }
{
    named(identity, put.apply(alloc, p))
}

/// A polynomial with variables set to 0, and others in place of variables then.
pub fn put_in_kept(
    alloc: Global,
    identity: Identity,
    p: &Poly,
    vars: &[u32],
    put: &mut Substitution,
) -> Result<Poly, Halt>
    requires { All IsVariable vars.now }
    ensures made { let rest = without vars.now p.now in
        Makes identity (SubstituteOverflows rest put.old) (substituted rest put.old) result }
    ensures kept { put.new ≡ put.old }
{
    let rest = set_zero(alloc, p, vars)?;
    put_in(alloc, identity, &rest, put)
}

/// Entry k of x with the number added at j, where each x above j is 0.
pub fn last_added(alloc: Global, identity: Identity, j: u32, up: bool, k: u32) -> Result<Poly, Halt>
    requires least { 1 ≤ k }
    requires most { k ≤ 48 }
    ensures { Makes identity ⊥ (last_added j (number_of up) k) result }
{
    if k > j {
        return Ok(zero(alloc));
    }
    let x = var(alloc, x_of(k))?;
    if k < j {
        return Ok(x);
    }
    let number = constant(alloc, number_of(up))?;
    named(identity, add(alloc, &x, &number))
}
