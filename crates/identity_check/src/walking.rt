//! The walk over all identities, in their written order.

ghost use Rattle.std.specs.Prelude.{◌≡◌, ◌≤◌, length, IsTrue, OnOk};
ghost use Rattle.std.specs.List.{flat_map};
ghost use Rattle.nil_pres.specs.Relations.{relations_of};
ghost use Rattle.poly_subst.specs.Walk.{in_x};
ghost use Rattle.hall_table.specs.Tabled.{last_of, poly_at};
ghost use Rattle.hall_table.specs.Order.{generators};
ghost use Rattle.hall_table.specs.Width.{HasRows};
ghost use Rattle.identity_check.specs.Sides.{xs};
ghost use Rattle.identity_check.specs.Events.{events, last_events, relation_events, step_events};
ghost use Rattle.identity_check.specs.Halts.{Walks, WalksIn};
ghost use Rattle.identity_check.specs.Meeting.{AllTold};
ghost use Rattle.identity_check.specs.Pairs.{AreZero};

use crate::halt::Halt;
use crate::last_letters::last_letters;
use crate::meeting::all_told;
use crate::pairs::relations;
use crate::steps::{put_x, steps};
use crate::units::{units_left, units_right};
use binom_poly::Rows;
use hall_table::Table;
use nil_pres::Presentation;
use poly_subst::Substitution;
use std::alloc::Global;

/// Tries the identities of a generator that comes last, and then those of its inverse.
fn last_pair(alloc: Global, table: &Table, j: u32) -> Result<(), Halt>
    requires least { table.now.level ≤ j }
    requires most { j ≤ last_of table.now }
    ensures { Walks table.now (last_events (xs table.now) j) result }
{
    last_letters(alloc, table, j, true)?;
    last_letters(alloc, table, j, false)
}

/// Tries these of each generator.
fn all_last(alloc: Global, table: &Table) -> Result<(), Halt>
    ensures { Walks table.now (flat_map (last_events (xs table.now)) (xs table.now)) result }
{
    for j in table.level()..table.last() + 1 {
        last_pair(alloc, table, j)?;
    }
    Ok(())
}

/// Tries the step identities of a generator, and then those of its inverse.
fn step_pair(alloc: Global, table: &Table, put: &mut Substitution, j: u32) -> Result<(), Halt>
    requires least { table.now.level ≤ j }
    requires most { j ≤ last_of table.now }
    requires put { put.old ≡ in_x table.now.level (generators table.now) (poly_at table.now) }
    ensures walks { Walks table.now (step_events (xs table.now) j) result }
    ensures kept { put.new ≡ put.old }
{
    steps(alloc, table, put, j, true)?;
    steps(alloc, table, put, j, false)
}

/// Tries these of each generator.
fn all_steps(alloc: Global, table: &Table) -> Result<(), Halt>
    ensures { Walks table.now (flat_map (step_events (xs table.now)) (xs table.now)) result }
{
    let mut put = put_x(alloc, table)?;
    for j in table.level()..table.last() + 1 {
        step_pair(alloc, table, &mut put, j)?;
    }
    Ok(())
}

/// Tries the relations of a generator and each later one.
fn later_relations(
    alloc: Global,
    pres: &Presentation,
    table: &Table,
    rows: &mut Rows,
    told: bool,
    j: u32,
) -> Result<(), Halt>
    requires names { last_of table.now ≡ length pres.now.names }
    requires told { IsTrue told → AllTold (relations_of pres.now) table.now }
    requires least { table.now.level ≤ j }
    requires most { j ≤ last_of table.now }
    requires rows { HasRows table.now rows.old }
    requires zeros { AreZero rows.old }
    ensures walks { WalksIn (relations_of pres.now) table.now
        (relation_events (xs table.now) (last_of table.now) j) result }
    ensures rows { HasRows table.now rows.new }
    ensures zeros { OnOk result (AreZero rows.new) }
{
    let end = table.last() + 1;
    for l in j + 1..end {
        relations(alloc, pres, table, rows, told, j, l)?;
    }
    Ok(())
}

/// Tries these of each generator.
pub fn all_relations(alloc: Global, pres: &Presentation, table: &Table) -> Result<(), Halt>
    requires { last_of table.now ≡ length pres.now.names }
    ensures { WalksIn (relations_of pres.now) table.now
        (flat_map (relation_events (xs table.now) (last_of table.now)) (xs table.now)) result }
{
    let told = all_told(pres, table);
    let mut rows = table.rows(alloc)?;
    for j in table.level()..table.last() + 1 {
        later_relations(alloc, pres, table, &mut rows, told, j)?;
    }
    Ok(())
}

/// Walks over all identities of a table.
pub fn walk(alloc: Global, pres: &Presentation, table: &Table) -> Result<(), Halt>
    requires { last_of table.now ≡ length pres.now.names }
    ensures { WalksIn (relations_of pres.now) table.now
        (events table.now.level (last_of table.now)) result }
{
    units_right(alloc, table)?;
    units_left(alloc, table)?;
    all_last(alloc, table)?;
    all_steps(alloc, table)?;
    all_relations(alloc, pres, table)
}
