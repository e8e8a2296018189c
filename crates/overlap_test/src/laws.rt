//! What the overlaps of a level say of the presentation.

ghost use Rattle.overlap_test.specs.Laws.{OfLevelsBelow, IsOneVerdict, AgreementIs, DifferenceIs};

use group_eval::laws::by_values;
use hall_law::laws::{overlaps, powers_exist};
use hall_table::presentations::relations;

/// Where the overlaps of a level are tried by a checked table of the level above: what they say is
/// exactly one result. Where it is that they agree, both ways of each are equal as integers
/// without bound, and where two ways differ, the presentation isn't consistent. (The consistency
/// check of polycyclic presentations.)
pub fn verdicts()
    ensures one { OfLevelsBelow IsOneVerdict }
    ensures agree { OfLevelsBelow AgreementIs }
    ensures differ { OfLevelsBelow DifferenceIs }
{
    by_values();
    overlaps();
    powers_exist();
    relations();
}
