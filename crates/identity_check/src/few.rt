//! Whether few of the identities are enough, so that the others needn't be tried.

ghost use Rattle.std.specs.Prelude.{◌≡◌, ◌≤◌, length, All, IfOk, IsTrue, OnOk};
ghost use Rattle.nil_word.specs.Congruence.{Relations};
ghost use Rattle.nil_pres.specs.Relations.{relations_of};
ghost use Rattle.poly_subst.specs.Walk.{in_x};
ghost use Rattle.hall_table.specs.Tabled.{last_of, poly_at};
ghost use Rattle.hall_table.specs.Order.{generators};
ghost use Rattle.identity_check.specs.Adding.{IsAddedOn};
ghost use Rattle.identity_check.specs.Drawing.{AreGenerators};
ghost use Rattle.identity_check.specs.Events.{HaveEqualSides};
ghost use Rattle.identity_check.specs.Few.{AllStep, Steps};

use crate::Memory;
use crate::adding::added_on;
use crate::crossing::all_cross;
use crate::drawing::walked;
use crate::halt::Halt;
use crate::steps::{put_x, steps};
use crate::walking::all_relations;
use hall_table::Table;
use hall_table::presentations::relations;
use nil_pres::Presentation;
use poly_subst::{Substitution, steps_fit};
use std::alloc::{AllocError, Global};

/// Tries the step identities of a generator, and not those of its inverse; one that is known to be
/// added on has no need of them.
fn step_up(
    alloc: Global,
    table: &Table,
    put: &mut Substitution,
    known: &[u32],
    j: u32,
) -> Result<(), Halt>
    requires known { All (IsAddedOn table.now) known.now }
    requires least { table.now.level ≤ j }
    requires most { j ≤ last_of table.now }
    requires put { put.old ≡ in_x table.now.level (generators table.now) (poly_at table.now) }
    ensures steps { OnOk result ((rels : Relations) → Steps rels table.now j) }
    ensures kept { put.new ≡ put.old }
{
    if known.contains(&j) {
        return Ok(());
    }
    steps(alloc, table, put, j, true)
}

/// Tries these of some generators.
fn steps_up(alloc: Global, table: &Table, known: &[u32], walked: &[u32]) -> Result<(), Halt>
    requires known { All (IsAddedOn table.now) known.now }
    requires walked { AreGenerators table.now.level (last_of table.now) walked.now }
    ensures { OnOk result ((rels : Relations) → AllStep rels table.now walked.now) }
{
    let mut put = put_x(alloc, table)?;
    for j in walked {
        step_up(alloc, table, &mut put, known, *j)?;
    }
    Ok(())
}

/// Whether a walk met no event that stops.
fn is_through(walk: Result<(), Halt>) -> Result<bool, Memory>
    ensures { IfOk result (λ through. IsTrue through → walk ≡ Ok tt) }
{
    match walk {
        Ok(()) => Ok(true),
        Err(Halt::Memory) => Err(AllocError),
        Err(_) => Ok(false),
    }
}

/// Whether few of the identities show that none of them stops. The answer `false` says nothing.
pub fn few_hold(alloc: Global, pres: &Presentation, table: &Table) -> Result<bool, Memory>
    requires { last_of table.now ≡ length pres.now.names }
    ensures { IfOk result (λ held. IsTrue held
        → HaveEqualSides (relations_of pres.now) table.now) }
{
    relations();
    let _ = pres.count();
    let _ = table.last();
    if !all_cross(table) {
        return Ok(false);
    }
    if !steps_fit(table.level(), table.lend_all()) {
        return Ok(false);
    }
    let known = added_on(alloc, table)?;
    let walked = walked(alloc, pres, table.level(), &known)?;
    if !is_through(steps_up(alloc, table, &known, &walked))? {
        return Ok(false);
    }
    is_through(all_relations(alloc, pres, table))
}
