//! The compile.

ghost use Rattle.std.specs.Prelude.{◌≡◌, ◌≤◌, length, map, IfOk};
ghost use Rattle.hall_compile.specs.Deciding.{Decides, HasOnlyTable};
ghost use Rattle.hall_compile.specs.Outcomes.{IsOutcome};
ghost use Rattle.hall_compile.specs.Proposals.{proposal};

use super::Memory;
use super::base::base;
use super::compiled::Compiled;
use super::level::Level;
use super::origin::Origin;
use super::outcome::Outcome;
use super::passing::pass;
use hall_table::laws::{group, one_table};
use nil_pres::Presentation;
use nil_propose::Proposer;
use std::alloc::Global;

/// Compiles a presentation, from the last generator down to the first. The proposers are dropped
/// when the call ends.
pub fn compile(
    alloc: Global,
    pres: &Presentation,
    proposers: Vec<Box<dyn Proposer>>,
) -> Result<Outcome, Memory>
    requires few { length proposers.items ≤ 64 }
    // What the overlaps, the proposers, the checks of their tables and the sum plans say, in order.
    ensures outcome { IfOk result (IsOutcome pres.now
        (λ i. map (λ b. proposal (named b) (gives b pres.now i)) proposers.items)) }
    // Whether the presentation is consistent, with the evidence.
    ensures decided { IfOk result (Decides pres.now) }
    // No other table multiplies in the presentation, whoever proposed this one.
    ensures one_table { IfOk result (HasOnlyTable pres.now) }
{
    group();
    one_table();
    let mut proposers = proposers;
    let mut checked = base(alloc, pres)?;
    let mut by = Vec::new(alloc);
    by.push(Origin::Base)?;
    let mut asked = Vec::new(alloc);
    for i in (1..pres.count()).rev() {
        match pass(
            alloc,
            pres,
            proposers.as_mut_slice(),
            &checked,
            i,
            &mut asked,
        )? {
            Level::Chosen(origin, next) => {
                by.push(origin)?;
                checked = next;
            }
            Level::Inconsistent(overlap) => return Ok(Outcome::Inconsistent(overlap)),
            Level::Wide(place) => return Ok(Outcome::Wide(place)),
        }
    }
    let _level = checked.table().level();
    Ok(Outcome::Compiled(Compiled { checked, by, asked }))
}
