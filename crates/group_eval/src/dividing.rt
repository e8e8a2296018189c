//! Inverses and quotients.

ghost use Rattle.std.specs.Prelude.{◌≡◌, List, [], ◌∷◌, ◌++◌, OnOk, OnErr};
ghost use Rattle.nil_num.specs.Outcome.{Writes};
ghost use Rattle.nil_word.specs.declared.letter.Letter.{Letter};
ghost use Rattle.nil_word.specs.Words.{inverse};
ghost use Rattle.hall_table.specs.Multiplies.{IsChecked};
ghost use Rattle.group_eval.specs.Elements.{IsOf};
ghost use Rattle.group_eval.specs.Order.{inverted, divided};
ghost use Rattle.group_eval.specs.Space.{AreOf, IsSpaceOf};

use super::meaning::elements_of;
use super::multiplying::multiply_into;
use super::solving::solve_into;
use super::workspace::Workspace;
use hall_table::{Checked, WideAt};
use nil_word::Vector;
use std::mem::swap;

/// Writes `a^-1`. After a refusal `out` is as before.
pub fn inverse(
    ws: &mut Workspace,
    checked: &Checked,
    a: &Vector,
    out: &mut Vector,
) -> Result<(), WideAt>
    requires vectors { AreOf checked.now (a.now ∷ out.old ∷ []) }
    requires ws { IsSpaceOf ws.old checked.now }
    ensures element { OnOk result ((u : List Letter) → IsOf checked.now a.now u
        → IsOf checked.now out.new (inverse u)) }
    ensures order { Writes result out.new (inverted checked.now.table a.now) }
    ensures err { OnErr result (out.new ≡ out.old) }
    ensures ws { IsSpaceOf ws.new checked.now }
{
    elements_of(checked);
    solve_into(checked.table(), &mut ws.rows, a, &ws.zero, &mut ws.solution)?;
    swap(out, &mut ws.solution);
    Ok(())
}

/// Writes `a b^-1`. After a refusal `out` is as before.
pub fn quotient(
    ws: &mut Workspace,
    checked: &Checked,
    a: &Vector,
    b: &Vector,
    out: &mut Vector,
) -> Result<(), WideAt>
    requires vectors { AreOf checked.now (a.now ∷ b.now ∷ out.old ∷ []) }
    requires ws { IsSpaceOf ws.old checked.now }
    ensures element { OnOk result ((u v : List Letter) → IsOf checked.now a.now u
        → IsOf checked.now b.now v → IsOf checked.now out.new (u ++ inverse v)) }
    ensures order { Writes result out.new (divided checked.now.table a.now b.now) }
    ensures err { OnErr result (out.new ≡ out.old) }
    ensures ws { IsSpaceOf ws.new checked.now }
{
    elements_of(checked);
    let table = checked.table();
    solve_into(table, &mut ws.rows, b, &ws.zero, &mut ws.solution)?;
    multiply_into(table, &mut ws.rows, a, &ws.solution, out)
}
