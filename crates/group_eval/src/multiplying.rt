//! Products.

ghost use Rattle.std.specs.Prelude.{◌≡◌, List, length, [], ◌∷◌, ◌++◌, OnOk, OnErr};
ghost use Rattle.nil_num.specs.Outcome.{Writes};
ghost use Rattle.nil_word.specs.declared.letter.Letter.{Letter};
ghost use Rattle.hall_table.specs.Order.{multiplied};
ghost use Rattle.hall_table.specs.Multiplies.{IsChecked};
ghost use Rattle.hall_table.specs.Tabled.{last_of};
ghost use Rattle.hall_table.specs.Width.{HasRows};
ghost use Rattle.group_eval.specs.Elements.{IsOf};
ghost use Rattle.group_eval.specs.Space.{AreOf, HaveEntries, IsSpaceOf};

use super::meaning::elements_of;
use super::workspace::Workspace;
use binom_poly::Rows;
use hall_table::{Checked, Table, WideAt};
use nil_word::Vector;

/// Writes the product `a b`. After a refusal `out` is as before.
pub fn multiply(
    ws: &mut Workspace,
    checked: &Checked,
    a: &Vector,
    b: &Vector,
    out: &mut Vector,
) -> Result<(), WideAt>
    requires vectors { AreOf checked.now (a.now ∷ b.now ∷ out.old ∷ []) }
    requires ws { IsSpaceOf ws.old checked.now }
    ensures element { OnOk result ((u v : List Letter) → IsOf checked.now a.now u
        → IsOf checked.now b.now v → IsOf checked.now out.new (u ++ v)) }
    ensures order { Writes result out.new (multiplied checked.now.table a.now b.now) }
    ensures err { OnErr result (out.new ≡ out.old) }
    ensures ws { IsSpaceOf ws.new checked.now }
{
    elements_of(checked);
    multiply_into(checked.table(), &mut ws.rows, a, b, out)
}

/// Writes the product. After a refusal `out` is as before.
pub(super) fn multiply_into(
    table: &Table,
    rows: &mut Rows,
    a: &Vector,
    b: &Vector,
    out: &mut Vector,
) -> Result<(), WideAt>
    requires vectors { HaveEntries (last_of table.now) (a.now ∷ b.now ∷ out.old ∷ []) }
    requires rows { HasRows table.now rows.old }
    ensures order { Writes result out.new (multiplied table.now a.now b.now) }
    ensures length { length out.new ≡ last_of table.now }
    ensures err { OnErr result (out.new ≡ out.old) }
    ensures rows { HasRows table.now rows.new }
{
    table.multiply_into(rows, a, b, out)
}
