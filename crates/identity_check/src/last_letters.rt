//! The identities of a generator that comes last, and of its inverse.

ghost use Rattle.std.specs.Prelude.{◌≡◌, ◌≤◌, [], ◌∷◌, All};
ghost use Rattle.binom_poly.specs.Monomial.{IsVariable};
ghost use Rattle.binom_poly.specs.Variable.{y_of};
ghost use Rattle.poly_subst.specs.Walk.{by_number};
ghost use Rattle.hall_table.specs.Tabled.{last_of};
ghost use Rattle.identity_check.specs.Sides.{xs, cleared};
ghost use Rattle.identity_check.specs.Signs.{last_id, number_of};
ghost use Rattle.identity_check.specs.Events.{at_each};
ghost use Rattle.identity_check.specs.Events.Event.{tries};
ghost use Rattle.identity_check.specs.Halts.{Walks};

use crate::comparing::compare;
use crate::halt::Halt;
use crate::identity::Identity;
use crate::listing;
use crate::making::{by_number, last_added, put_in_kept};
use hall_table::Table;
use poly_subst::Substitution;
use std::alloc::Global;

/// The identity of a generator, or of its inverse, that comes last.
fn last_id(j: u32, up: bool, k: u32) -> Identity
    ensures { result ≡ last_id up j k }
{
    if up {
        Identity::Up { j, k }
    } else {
        Identity::Down { j, k }
    }
}

/// Tries one of these identities.
fn last_letter(
    alloc: Global,
    table: &Table,
    vars: &[u32],
    put: &mut Substitution,
    j: u32,
    up: bool,
    k: u32,
) -> Result<(), Halt>
    requires first { table.now.level ≤ j }
    requires last { j ≤ last_of table.now }
    requires least { table.now.level ≤ k }
    requires most { k ≤ last_of table.now }
    requires cleared { vars.now ≡ cleared table.now j }
    requires variables { All IsVariable vars.now }
    requires put { put.old ≡ by_number (y_of j) (number_of up) }
    ensures walks { Walks table.now (tries (last_id up j k) ∷ []) result }
    ensures kept { put.new ≡ put.old }
{
    let _ = table.last();
    let identity = last_id(j, up, k);
    let left = put_in_kept(alloc, identity, table.lend(k), vars, put)?;
    let right = last_added(alloc, identity, j, up, k)?;
    compare(alloc, identity, &left, &right)
}

/// Tries the identities of a generator, or of its inverse, that comes last.
pub fn last_letters(alloc: Global, table: &Table, j: u32, up: bool) -> Result<(), Halt>
    requires least { table.now.level ≤ j }
    requires most { j ≤ last_of table.now }
    ensures { Walks table.now (at_each (xs table.now) (λ k. tries (last_id up j k))) result }
{
    let end = table.last() + 1;
    let vars = listing::cleared(alloc, table, j)?;
    let mut put = by_number(alloc, j, up)?;
    for k in table.level()..end {
        last_letter(alloc, table, &vars, &mut put, j, up, k)?;
    }
    Ok(())
}
