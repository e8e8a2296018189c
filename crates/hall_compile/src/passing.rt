//! From the table of the level above to that of a level.

ghost use Rattle.std.specs.Prelude.{◌≡◌, ℕ, ◌+◌, ◌≤◌, length, map, IfOk};
ghost use Rattle.hall_table.specs.Agreement.{HaveEqualWays};
ghost use Rattle.hall_compile.specs.Passing.{Chooses, Passes, ShowsAt, SumsUp};
ghost use Rattle.hall_compile.specs.Proposals.{proposal};

use super::Memory;
use super::asked::Asked;
use super::asking::ask_all;
use super::level::Level;
use super::origin::Origin;
use super::wide_place::WidePlace;
use hall_table::Checked;
use nil_pres::Presentation;
use nil_propose::Proposer;
use overlap_test::{LevelResult, test_level};
use std::alloc::{AllocError, Global};
use sum_compiler::{SumFault, level_table};

/// The table of the sum plan, or the place where it overflows.
fn sum(alloc: Global, pres: &Presentation, above: &Checked, i: u32) -> Result<Level, Memory>
    requires pres { above.now.pres ≡ pres.now }
    requires level { above.now.table.level ≡ i + 1 }
    requires least { 1 ≤ i }
    requires agree { HaveEqualWays above.now i }
    ensures { IfOk result (SumsUp above.now i) }
{
    match level_table(alloc, pres, above, i) {
        Ok(table) => {
            let pres = pres.copy(alloc)?;
            Ok(Level::Chosen(Origin::Sum, Checked::new(pres, table)))
        }
        Err(SumFault::Wide(place)) => Ok(Level::Wide(WidePlace::Sum { level: i, place })),
        Err(SumFault::Memory) => Err(AllocError),
    }
}

/// The table of a level whose overlaps agree: the proposers are asked before it is summed.
fn choose(
    alloc: Global,
    pres: &Presentation,
    proposers: &mut [Box<dyn Proposer>],
    above: &Checked,
    i: u32,
    asked: &mut Vec<Asked>,
) -> Result<Level, Memory>
    requires pres { above.now.pres ≡ pres.now }
    requires level { above.now.table.level ≡ i + 1 }
    requires least { 1 ≤ i }
    requires agree { HaveEqualWays above.now i }
    ensures chooses { IfOk result (Chooses above.now i
        (map (λ b. proposal (named b) (gives b pres.now i)) proposers.old)
        asked.old.items asked.new.items) }
    ensures same { (l : ℕ) → map (λ b. proposal (named b) (gives b pres.now l)) proposers.new
        ≡ map (λ b. proposal (named b) (gives b pres.now l)) proposers.old }
{
    let _level = above.table().last();
    match ask_all(alloc, pres, proposers, i, asked)? {
        Some(accepted) => {
            let origin = Origin::Proposer(accepted.label);
            Ok(Level::Chosen(origin, accepted.checked))
        }
        None => sum(alloc, pres, above, i),
    }
}

/// Tries the overlaps of a level, and where they agree chooses its table.
pub fn pass(
    alloc: Global,
    pres: &Presentation,
    proposers: &mut [Box<dyn Proposer>],
    above: &Checked,
    i: u32,
    asked: &mut Vec<Asked>,
) -> Result<Level, Memory>
    requires pres { above.now.pres ≡ pres.now }
    requires level { above.now.table.level ≡ i + 1 }
    requires least { 1 ≤ i }
    ensures passes { IfOk result (Passes above.now i
        (map (λ b. proposal (named b) (gives b pres.now i)) proposers.old)
        asked.old.items asked.new.items) }
    ensures shows { IfOk result (ShowsAt pres.now) }
    ensures same { (l : ℕ) → map (λ b. proposal (named b) (gives b pres.now l)) proposers.new
        ≡ map (λ b. proposal (named b) (gives b pres.now l)) proposers.old }
{
    match test_level(alloc, pres, above, i)? {
        LevelResult::Agree => choose(alloc, pres, proposers, above, i, asked),
        LevelResult::Differ(overlap) => Ok(Level::Inconsistent(overlap)),
        LevelResult::Wide { j, k } => Ok(Level::Wide(WidePlace::Overlap { i, j, k })),
    }
}
