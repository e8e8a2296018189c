//! Proposers, asked in turn.

ghost use Rattle.std.specs.Prelude.{◌≡◌, ℕ, ◌≤◌, length, map, IfOk};
ghost use Rattle.hall_compile.specs.Passing.{Asks, IsJudged};
ghost use Rattle.hall_compile.specs.Proposals.{proposal};

use super::Memory;
use super::asked::Asked;
use super::judging::{Judged, judge};
use hall_table::Checked;
use nil_pres::Presentation;
use nil_propose::Proposer;
use std::alloc::Global;

/// A table that is accepted, and the label of its proposer.
#[derive(Drop)]
pub struct Accepted {
    pub label: u32,
    pub checked: Checked,
}

/// Asks a proposer for the table of a level, and checks it.
fn ask(
    alloc: Global,
    pres: &Presentation,
    proposer: &mut Box<dyn Proposer>,
    i: u32,
) -> Result<Judged, Memory>
    requires least { 1 ≤ i }
    requires most { i ≤ length pres.now.names }
    ensures judged { IfOk result (IsJudged pres.now i (gives proposer.old pres.now i)) }
    ensures same { (l : ℕ) → proposal (named proposer.new) (gives proposer.new pres.now l)
        ≡ proposal (named proposer.old) (gives proposer.old pres.now l) }
{
    let given = proposer.propose(alloc, pres, i)?;
    judge(alloc, pres, i, given)
}

/// Asks the proposers in turn for the table of a level, up to the first whose table is accepted.
pub fn ask_all(
    alloc: Global,
    pres: &Presentation,
    proposers: &mut [Box<dyn Proposer>],
    i: u32,
    asked: &mut Vec<Asked>,
) -> Result<Option<Accepted>, Memory>
    requires least { 1 ≤ i }
    requires most { i ≤ length pres.now.names }
    ensures asks { IfOk result (Asks pres.now i
        (map (λ b. proposal (named b) (gives b pres.now i)) proposers.old)
        asked.old.items asked.new.items) }
    ensures same { (l : ℕ) → map (λ b. proposal (named b) (gives b pres.now l)) proposers.new
        ≡ map (λ b. proposal (named b) (gives b pres.now l)) proposers.old }
{
    for proposer in proposers.iter_mut() {
        let label = proposer.label();
        match ask(alloc, pres, proposer, i)? {
            Judged::Taken(checked) => return Ok(Some(Accepted { label, checked })),
            Judged::Left(reason) => asked.push(Asked {
                level: i,
                label,
                reason,
            })?,
        }
    }
    Ok(None)
}
