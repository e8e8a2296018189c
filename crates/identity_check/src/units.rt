//! The unit identities.

ghost use Rattle.std.specs.Prelude.{◌≡◌, ◌≤◌, [], ◌∷◌, All};
ghost use Rattle.binom_poly.specs.Monomial.{IsVariable};
ghost use Rattle.hall_table.specs.Tabled.{last_of};
ghost use Rattle.identity_check.specs.declared.identity.Identity.{Identity};
ghost use Rattle.identity_check.specs.Sides.{xs, ys};
ghost use Rattle.identity_check.specs.Events.{at_each};
ghost use Rattle.identity_check.specs.Events.Event.{tries};
ghost use Rattle.identity_check.specs.Halts.{Walks};

use crate::comparing::compare;
use crate::halt::Halt;
use crate::identity::Identity;
use crate::listing;
use binom_poly::{var, x_of, y_of};
use hall_table::Table;
use poly_subst::set_zero;
use std::alloc::Global;

/// Tries `f_k(x, 0)` against `x_k`.
fn unit_right(alloc: Global, table: &Table, vars: &[u32], k: u32) -> Result<(), Halt>
    requires least { table.now.level ≤ k }
    requires most { k ≤ last_of table.now }
    requires ys { vars.now ≡ ys table.now }
    requires variables { All IsVariable vars.now }
    ensures { Walks table.now (tries (Identity.UnitRight k) ∷ []) result }
{
    let _ = table.last();
    let left = set_zero(alloc, table.lend(k), vars)?;
    let right = var(alloc, x_of(k))?;
    compare(alloc, Identity::UnitRight { k }, &left, &right)
}

/// Tries `f_k(0, y)` against `y_k`.
fn unit_left(alloc: Global, table: &Table, vars: &[u32], k: u32) -> Result<(), Halt>
    requires least { table.now.level ≤ k }
    requires most { k ≤ last_of table.now }
    requires xs { vars.now ≡ xs table.now }
    requires variables { All IsVariable vars.now }
    ensures { Walks table.now (tries (Identity.UnitLeft k) ∷ []) result }
{
    let _ = table.last();
    let left = set_zero(alloc, table.lend(k), vars)?;
    let right = var(alloc, y_of(k))?;
    compare(alloc, Identity::UnitLeft { k }, &left, &right)
}

/// Tries the identities of a right unit, for each generator.
pub fn units_right(alloc: Global, table: &Table) -> Result<(), Halt>
    ensures { Walks table.now (at_each (xs table.now) (λ k. tries (Identity.UnitRight k))) result }
{
    let vars = listing::ys(alloc, table)?;
    for k in table.level()..table.last() + 1 {
        unit_right(alloc, table, &vars, k)?;
    }
    Ok(())
}

/// Tries the identities of a left unit, for each generator.
pub fn units_left(alloc: Global, table: &Table) -> Result<(), Halt>
    ensures { Walks table.now (at_each (xs table.now) (λ k. tries (Identity.UnitLeft k))) result }
{
    let vars = listing::xs(alloc, table)?;
    for k in table.level()..table.last() + 1 {
        unit_left(alloc, table, &vars, k)?;
    }
    Ok(())
}
