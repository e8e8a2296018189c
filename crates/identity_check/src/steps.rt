//! The step identities of a generator, and of its inverse.

ghost use Rattle.std.specs.Prelude.{◌≡◌, ◌≤◌, [], ◌∷◌, IfOk, map};
ghost use Rattle.poly_subst.specs.Walk.{in_x, in_y};
ghost use Rattle.hall_table.specs.Tabled.{last_of, poly_at};
ghost use Rattle.hall_table.specs.Order.{generators};
ghost use Rattle.identity_check.specs.Sides.{xs, step};
ghost use Rattle.identity_check.specs.Signs.{number_of, step_id};
ghost use Rattle.identity_check.specs.Events.{at_each, signed_events};
ghost use Rattle.identity_check.specs.Events.Event.{makes, tries};
ghost use Rattle.identity_check.specs.Halts.{Walks};

use crate::comparing::compare;
use crate::halt::Halt;
use crate::identity::Identity;
use crate::listing;
use crate::making::{by_number, put_in, put_in_kept};
use binom_poly::{Memory, Poly, x_of, y_of};
use hall_table::Table;
use poly_subst::{Assign, Substitution, x_to_y};
use std::alloc::Global;

/// The step polynomials of a generator, or of its inverse, and the same in place of the y.
#[derive(Drop)]
struct StepPolys {
    polys: Vec<Poly>,
    in_y: Substitution,
}

/// The identity of a generator, or of its inverse, that is multiplied on.
fn step_id(j: u32, up: bool, k: u32) -> Identity
    ensures { result ≡ step_id up j k }
{
    if up {
        Identity::StepUp { j, k }
    } else {
        Identity::StepDown { j, k }
    }
}

/// The polynomials of a table, in place of its x.
pub fn put_x(alloc: Global, table: &Table) -> Result<Substitution, Memory>
    ensures { IfOk result (λ put. put
        ≡ in_x table.now.level (generators table.now) (poly_at table.now)) }
{
    let mut list = Vec::new(alloc);
    for k in table.level()..table.last() + 1 {
        let to = table.poly(alloc, k)?;
        list.push(Assign { var: x_of(k), to })?;
    }
    Substitution::new(alloc, list)
}

/// Makes the step polynomials.
fn make_steps(alloc: Global, table: &Table, j: u32, up: bool) -> Result<StepPolys, Halt>
    requires least { table.now.level ≤ j }
    requires most { j ≤ last_of table.now }
    ensures polys { IfOk result (λ made. made.polys.items
        ≡ map (step table.now j (number_of up)) (xs table.now)) }
    ensures in_y { IfOk result (λ made. made.in_y
        ≡ in_y table.now.level (generators table.now) (step table.now j (number_of up))) }
    ensures walks { Walks table.now (at_each (xs table.now) (λ k. makes (step_id up j k))) result }
{
    let end = table.last() + 1;
    let vars = listing::other_ys(alloc, table, j)?;
    let mut number = by_number(alloc, j, up)?;
    let mut polys = Vec::new(alloc);
    let mut list = Vec::new(alloc);
    for k in table.level()..end {
        let poly = put_in_kept(alloc, step_id(j, up, k), table.lend(k), &vars, &mut number)?;
        let to = x_to_y(alloc, &poly)?;
        list.push(Assign { var: y_of(k), to })?;
        polys.push(poly)?;
    }
    let in_y = Substitution::new(alloc, list)?;
    Ok(StepPolys { polys, in_y })
}

/// Tries one of the step identities.
fn step(
    alloc: Global,
    table: &Table,
    put: &mut Substitution,
    made: &mut StepPolys,
    j: u32,
    up: bool,
    k: u32,
) -> Result<(), Halt>
    requires least { table.now.level ≤ k }
    requires most { k ≤ last_of table.now }
    requires put { put.old ≡ in_x table.now.level (generators table.now) (poly_at table.now) }
    requires polys { made.old.polys.items ≡ map (step table.now j (number_of up)) (xs table.now) }
    requires in_y { made.old.in_y
        ≡ in_y table.now.level (generators table.now) (step table.now j (number_of up)) }
    ensures walks { Walks table.now (tries (step_id up j k) ∷ []) result }
    ensures kept { put.new ≡ put.old }
    ensures polys_kept { made.new.polys ≡ made.old.polys }
    ensures in_y_kept { made.new.in_y ≡ made.old.in_y }
{
    let _ = table.last();
    let identity = step_id(j, up, k);
    let place = (k - table.level()) as usize;
    let left = put_in(alloc, identity, table.lend(k), &mut made.in_y)?;
    let right = put_in(alloc, identity, &made.polys[place], put)?;
    compare(alloc, identity, &left, &right)
}

/// Makes the step polynomials of a generator, or of its inverse, and tries the identities.
pub fn steps(
    alloc: Global,
    table: &Table,
    put: &mut Substitution,
    j: u32,
    up: bool,
) -> Result<(), Halt>
    requires least { table.now.level ≤ j }
    requires most { j ≤ last_of table.now }
    requires put { put.old ≡ in_x table.now.level (generators table.now) (poly_at table.now) }
    ensures walks { Walks table.now (signed_events (step_id up) (xs table.now) j) result }
    ensures kept { put.new ≡ put.old }
{
    let end = table.last() + 1;
    let mut made = make_steps(alloc, table, j, up)?;
    for k in table.level()..end {
        step(alloc, table, put, &mut made, j, up, k)?;
    }
    Ok(())
}
