//! Overlaps whose generators commute.

ghost use Rattle.std.specs.Prelude.{◌≡◌, ◌<◌, ◌≤◌, ◌↔◌, true, length};
ghost use Rattle.overlap_test.specs.Commuting.{DoCommute, CommutingAgree};
ghost use Rattle.overlap_test.specs.Laws.{OfLevelsBelow};

use hall_table::presentations::relations;
use nil_pres::Presentation;

/// Whether three generators commute by their relations.
pub(super) fn do_commute(pres: &Presentation, i: u32, j: u32, k: u32) -> bool
    requires least { 1 ≤ i }
    requires below { i < j }
    requires above { j < k }
    requires most { k ≤ length pres.now.names }
    ensures { (result ≡ true) ↔ DoCommute pres.now i j k }
{
    pres.right_side(j, i).is_empty()
        && pres.right_side(k, i).is_empty()
        && pres.right_side(k, j).is_empty()
}

/// Where the generators of an overlap commute, both ways are their product, and its values are 0
/// and 1.
pub(super) fn commuting_agree()
    ensures { OfLevelsBelow CommutingAgree }
{
    relations();
}
