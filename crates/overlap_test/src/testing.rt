//! The test of a level.

ghost use Rattle.std.specs.Prelude.{◌≡◌, ◌+◌, ◌<◌, ◌≤◌, length, map, IfOk};
ghost use Rattle.nil_pres.specs.Relations.{relations_of};
ghost use Rattle.hall_table.specs.Agreement.{HaveEqualWays};
ghost use Rattle.hall_table.specs.Multiplies.{IsChecked};
ghost use Rattle.overlap_test.specs.Inconsistent.{ShowsInconsistent};
ghost use Rattle.overlap_test.specs.Room.{IsRoomOf};
ghost use Rattle.overlap_test.specs.Verdict.{first_event, row, tried, verdict, IsVerdict, IfAgree, IfDiffer};

use super::commuting::{commuting_agree, do_commute};
use super::laws::verdicts;
use super::level_result::LevelResult;
use super::ways::Ways;
use hall_table::{Checked, Memory};
use nil_pres::Presentation;
use std::alloc::Global;

/// Tries the overlaps of level `i` by a checked table of the level above, `j` ascending and then
/// `k`. The first that differs, or of which a value overflows 128 bits, ends the test.
pub fn test_level(
    alloc: Global,
    pres: &Presentation,
    above: &Checked,
    i: u32,
) -> Result<LevelResult, Memory>
    requires least { 1 ≤ i }
    requires level { above.now.table.level ≡ i + 1 }
    requires pres { above.now.pres ≡ pres.now }

    // Each result exactly where the overlaps say it, and the same as one value.
    ensures verdict { IfOk result (IsVerdict above.now i) }
    ensures order { IfOk result (λ r. r ≡ verdict above.now i) }

    // What it means for the group.
    ensures agree { IfOk result (λ r. IfAgree r (HaveEqualWays above.now i)) }
    ensures differ { IfOk result (λ r. IfDiffer r (ShowsInconsistent (relations_of pres.now))) }
{
    verdicts();
    let _level = above.table().level();
    let mut ways = Ways::reserve(alloc, above, i)?;
    for j in i + 1..pres.count() + 1 {
        match try_row(alloc, &mut ways, above, i, j)? {
            LevelResult::Agree => {}
            event => return Ok(event),
        }
    }
    Ok(LevelResult::Agree)
}

/// Tries the overlaps with one generator in the middle.
fn try_row(
    alloc: Global,
    ways: &mut Ways,
    above: &Checked,
    i: u32,
    j: u32,
) -> Result<LevelResult, Memory>
    requires least { 1 ≤ i }
    requires below { i < j }
    requires most { j ≤ length above.now.pres.names }
    requires level { above.now.table.level ≡ i + 1 }
    requires room { IsRoomOf ways.old above.now i }
    ensures order { IfOk result
        (λ r. r ≡ first_event (map (tried above.now i) (row (length above.now.pres.names) j))) }
    ensures room { IsRoomOf ways.new above.now i }
{
    let last = above.pres().count();
    for k in j + 1..last + 1 {
        match try_overlap(alloc, ways, above, i, j, k)? {
            LevelResult::Agree => {}
            event => return Ok(event),
        }
    }
    Ok(LevelResult::Agree)
}

/// Tries an overlap.
fn try_overlap(
    alloc: Global,
    ways: &mut Ways,
    above: &Checked,
    i: u32,
    j: u32,
    k: u32,
) -> Result<LevelResult, Memory>
    requires least { 1 ≤ i }
    requires below { i < j }
    requires above { j < k }
    requires most { k ≤ length above.now.pres.names }
    requires level { above.now.table.level ≡ i + 1 }
    requires room { IsRoomOf ways.old above.now i }
    ensures order { IfOk result (λ r. r ≡ tried above.now i (j, k)) }
    ensures room { IsRoomOf ways.new above.now i }
{
    if do_commute(above.pres(), i, j, k) {
        commuting_agree();
        let _level = above.table().level();
        return Ok(LevelResult::Agree);
    }
    if ways.write(above, i, j, k).is_err() {
        return Ok(LevelResult::Wide { j, k });
    }
    if ways.first.entries() == ways.second.entries() {
        return Ok(LevelResult::Agree);
    }
    Ok(LevelResult::Differ(ways.overlap(alloc, i, j, k)?))
}
