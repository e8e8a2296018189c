//! The check of a table.

ghost use Rattle.std.specs.Prelude.{◌≡◌, length, IfOk};
ghost use Rattle.nil_pres.specs.Relations.{relations_of};
ghost use Rattle.hall_table.specs.Tabled.{last_of};
ghost use Rattle.identity_check.specs.Events.{events};
ghost use Rattle.identity_check.specs.Halts.{WalksIn};
ghost use Rattle.identity_check.specs.Verdicts.{IsVerdict, HasEvidence, IsOnlyAccepted};

use crate::few::few_hold;
use crate::halt::Halt;
use crate::laws::{accepted, evidence};
use crate::verdict::Verdict;
use crate::walking::walk;
use hall_table::laws::one_table;
use hall_table::{Checked, Memory, Table};
use nil_pres::Presentation;
use std::alloc::{AllocError, Global};

/// The first event that stops. Where few of the identities show that none does, the others aren't
/// tried.
fn first_halt(alloc: Global, pres: &Presentation, table: &Table) -> Result<(), Halt>
    requires { last_of table.now ≡ length pres.now.names }
    ensures { WalksIn (relations_of pres.now) table.now
        (events table.now.level (last_of table.now)) result }
{
    if few_hold(alloc, pres, table)? {
        return Ok(());
    }
    walk(alloc, pres, table)
}

/// Tries the identities of a table in their written order. A table that is accepted multiplies in
/// the presentation.
pub fn check(alloc: Global, pres: &Presentation, table: Table) -> Result<Verdict, Memory>
    requires { last_of table ≡ length pres.now.names }
    // Accepted where every identity holds; else the first event that stops is named, and how.
    ensures verdict { IfOk result (IsVerdict pres.now table) }
    // The point and the numbers of a failure show it: there the values of the sides differ.
    ensures evidence { IfOk result (HasEvidence pres.now table) }
    // No other table of that level multiplies in the presentation.
    ensures one_table { IfOk result (IsOnlyAccepted pres.now table) }
{
    accepted();
    evidence();
    one_table();
    let _ = pres.count();
    let _ = table.last();
    match first_halt(alloc, pres, &table) {
        Ok(()) => {
            let pres = pres.copy(alloc)?;
            Ok(Verdict::Accepted(Checked::new(pres, table)))
        }
        Err(Halt::Failed(failure)) => Ok(Verdict::Refused(failure)),
        Err(Halt::Wide(identity)) => Ok(Verdict::Wide(identity)),
        Err(Halt::Memory) => Err(AllocError),
    }
}
