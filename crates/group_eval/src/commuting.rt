//! Commutators and conjugates.

ghost use Rattle.std.specs.Prelude.{◌≡◌, List, [], ◌∷◌, OnOk, OnErr};
ghost use Rattle.nil_num.specs.Outcome.{Writes};
ghost use Rattle.nil_word.specs.declared.letter.Letter.{Letter};
ghost use Rattle.nil_word.specs.Expressions.{commutator, conjugate};
ghost use Rattle.hall_table.specs.Multiplies.{IsChecked};
ghost use Rattle.group_eval.specs.Elements.{IsOf};
ghost use Rattle.group_eval.specs.Order.{commuted, conjugated};
ghost use Rattle.group_eval.specs.Space.{AreOf, IsSpaceOf};

use super::meaning::elements_of;
use super::multiplying::multiply_into;
use super::solving::solve_into;
use super::workspace::Workspace;
use hall_table::{Checked, WideAt};
use nil_word::Vector;
use std::mem::swap;

/// Writes `[u,v]`. After a refusal `out` is as before.
pub fn commutator(
    ws: &mut Workspace,
    checked: &Checked,
    u: &Vector,
    v: &Vector,
    out: &mut Vector,
) -> Result<(), WideAt>
    requires vectors { AreOf checked.now (u.now ∷ v.now ∷ out.old ∷ []) }
    requires ws { IsSpaceOf ws.old checked.now }
    ensures element { OnOk result ((w z : List Letter) → IsOf checked.now u.now w
        → IsOf checked.now v.now z → IsOf checked.now out.new (commutator w z)) }
    ensures order { Writes result out.new (commuted checked.now.table u.now v.now) }
    ensures err { OnErr result (out.new ≡ out.old) }
    ensures ws { IsSpaceOf ws.new checked.now }
{
    elements_of(checked);
    let table = checked.table();
    multiply_into(table, &mut ws.rows, v, u, &mut ws.first)?;
    multiply_into(table, &mut ws.rows, u, v, &mut ws.second)?;
    solve_into(table, &mut ws.rows, &ws.first, &ws.second, &mut ws.solution)?;
    swap(out, &mut ws.solution);
    Ok(())
}

/// Writes `u^v`. After a refusal `out` is as before.
pub fn conjugate(
    ws: &mut Workspace,
    checked: &Checked,
    u: &Vector,
    v: &Vector,
    out: &mut Vector,
) -> Result<(), WideAt>
    requires vectors { AreOf checked.now (u.now ∷ v.now ∷ out.old ∷ []) }
    requires ws { IsSpaceOf ws.old checked.now }
    ensures element { OnOk result ((w z : List Letter) → IsOf checked.now u.now w
        → IsOf checked.now v.now z → IsOf checked.now out.new (conjugate w z)) }
    ensures order { Writes result out.new (conjugated checked.now.table u.now v.now) }
    ensures err { OnErr result (out.new ≡ out.old) }
    ensures ws { IsSpaceOf ws.new checked.now }
{
    elements_of(checked);
    let table = checked.table();
    multiply_into(table, &mut ws.rows, u, v, &mut ws.first)?;
    solve_into(table, &mut ws.rows, v, &ws.first, &mut ws.solution)?;
    swap(out, &mut ws.solution);
    Ok(())
}
