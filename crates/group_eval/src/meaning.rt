//! What the written order gives by one checked table.

ghost use Rattle.hall_table.specs.Multiplies.{Paired};
ghost use Rattle.group_eval.specs.Laws.{ElementsAre};

use super::laws::elements;
use hall_table::Checked;

/// The law of elements at a checked table.
pub(super) fn elements_of(checked: &Checked)
    ensures { ElementsAre checked.now }
{
    elements();
    let _ = checked.pres().count();
    let _ = checked.table().level();
}
