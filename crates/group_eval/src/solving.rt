//! Solutions.

ghost use Rattle.std.specs.Prelude.{◌≡◌, ◌<◌, ◌≤◌, ℕ, true, false, ◌-ℤ◌, pos, List, [], ◌∷◌, length, OnOk, OnErr, IfOk, IfErr};
ghost use Rattle.nil_num.specs.Bound.{IsNumber};
ghost use Rattle.nil_num.specs.Outcome.{Writes};
ghost use Rattle.nil_word.specs.declared.letter.Letter.{Letter};
ghost use Rattle.binom_poly.specs.Polynomial.{value_of};
ghost use Rattle.binom_poly.specs.Readings.{value_at};
ghost use Rattle.hall_table.specs.Multiplies.{IsChecked};
ghost use Rattle.hall_table.specs.Order.{sum_overflows};
ghost use Rattle.hall_table.specs.Shape.{IsX};
ghost use Rattle.binom_poly.specs.Variable.{y_of};
ghost use Rattle.hall_table.specs.Tabled.{IsTabled, last_of, poly_at};
ghost use Rattle.hall_table.specs.Width.{HasRows};
ghost use Rattle.group_eval.specs.Elements.{IsOf, IsSolution};
ghost use Rattle.group_eval.specs.Order.{difference_overflows, solved};
ghost use Rattle.group_eval.specs.Space.{AreOf, HaveEntries, IsSpaceOf};

use super::copying::clear;
use super::meaning::elements_of;
use super::workspace::Workspace;
use binom_poly::Rows;
use hall_table::{Checked, Table, WideAt};
use nil_word::Vector;
use std::mem::swap;

/// Writes the one `x` with `a x = b`. After a refusal `out` is as before.
pub fn solve(
    ws: &mut Workspace,
    checked: &Checked,
    a: &Vector,
    b: &Vector,
    out: &mut Vector,
) -> Result<(), WideAt>
    requires vectors { AreOf checked.now (a.now ∷ b.now ∷ out.old ∷ []) }
    requires ws { IsSpaceOf ws.old checked.now }
    ensures element { OnOk result ((u v : List Letter) → IsOf checked.now a.now u
        → IsOf checked.now b.now v → IsSolution checked.now out.new u v) }
    ensures order { Writes result out.new (solved checked.now.table a.now b.now) }
    ensures err { OnErr result (out.new ≡ out.old) }
    ensures ws { IsSpaceOf ws.new checked.now }
{
    elements_of(checked);
    solve_into(checked.table(), &mut ws.rows, a, b, &mut ws.solution)?;
    swap(out, &mut ws.solution);
    Ok(())
}

/// Writes the solution to `x`. After a refusal `x` holds other values.
pub(super) fn solve_into(
    table: &Table,
    rows: &mut Rows,
    a: &Vector,
    b: &Vector,
    x: &mut Vector,
) -> Result<(), WideAt>
    requires vectors { HaveEntries (last_of table.now) (a.now ∷ b.now ∷ x.old ∷ []) }
    requires rows { HasRows table.now rows.old }
    ensures order { Writes result x.new (solved table.now a.now b.now) }
    ensures length { length x.new ≡ last_of table.now }
    ensures rows { HasRows table.now rows.new }
{
    let level = table.level();
    let last = table.last();
    clear(last, x);
    table.put_x(rows, a)?;
    clear_y(table, rows);
    for k in level..last + 1 {
        let difference = difference_at(table, rows, k, b.at(k))?;
        table.set_y(rows, k, difference)?;
        x.set(k, difference);
    }
    Ok(())
}

/// Puts 0 as the values of all y.
fn clear_y(table: &Table, rows: &mut Rows)
    requires rows { HasRows table.now rows.old }
    ensures put { (k : ℕ) → table.now.level ≤ k → k ≤ last_of table.now
        → value_at rows.new (y_of k) ≡ pos 0 }
    ensures kept { (v : ℕ) → IsX v → value_at rows.new v ≡ value_at rows.old v }
    ensures rows { HasRows table.now rows.new }
{
    for k in table.level()..table.last() + 1 {
        // A refusal leaves 0 too.
        let _ = table.set_y(rows, k, 0);
    }
}

/// A number less the value of the generator's polynomial at the values of the rows.
fn difference_at(table: &Table, rows: &Rows, k: u32, b: i128) -> Result<i128, WideAt>
    requires least { table.now.level ≤ k }
    requires most { k ≤ last_of table.now }
    requires rows { HasRows table.now rows.now }
    ensures value { IfOk result
        (λ e. e ≡ b -ℤ value_of (value_at rows.now) (poly_at table.now k)) }
    ensures within { IfOk result IsNumber }
    ensures fits { OnOk result (sum_overflows (value_at rows.now) (poly_at table.now k) ≡ false) }
    ensures wide { IfErr result (λ at. (at ≡ WideAt.Sum k)
        × (difference_overflows (value_at rows.now) b (poly_at table.now k) ≡ true)) }
{
    let value = table.entry(rows, k)?;
    let Some(difference) = b.checked_sub(value) else {
        return Err(WideAt::Sum(k));
    };
    if difference == i128::MIN {
        return Err(WideAt::Sum(k));
    }
    Ok(difference)
}
