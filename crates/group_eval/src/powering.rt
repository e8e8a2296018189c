//! Powers by halves.

ghost use Rattle.std.specs.Prelude.{◌≡◌, ◌≤◌, ℕ, List, [], ◌∷◌, length, OnOk, OnErr};
ghost use Rattle.nil_num.specs.Outcome.{Writes};
ghost use Rattle.nil_word.specs.declared.letter.Letter.{Letter};
ghost use Rattle.nil_word.specs.Expressions.{raised};
ghost use Rattle.hall_law.specs.Table.{zeros};
ghost use Rattle.hall_table.specs.Multiplies.{IsChecked};
ghost use Rattle.hall_table.specs.Tabled.{last_of};
ghost use Rattle.hall_table.specs.Width.{HasRows};
ghost use Rattle.group_eval.specs.Elements.{IsOf};
ghost use Rattle.group_eval.specs.Order.{base_of, powered, powered_in};
ghost use Rattle.group_eval.specs.Space.{AreOf, HaveEntries, IsSpaceOf};

use super::copying::{clear, copy_into};
use super::meaning::elements_of;
use super::multiplying::multiply_into;
use super::solving::solve_into;
use super::workspace::Workspace;
use binom_poly::Rows;
use hall_table::{Checked, Table, WideAt};
use nil_word::Vector;
use std::mem::swap;

/// Writes `a^e`. After a refusal `out` is as before.
pub fn power(
    ws: &mut Workspace,
    checked: &Checked,
    a: &Vector,
    e: i128,
    out: &mut Vector,
) -> Result<(), WideAt>
    requires vectors { AreOf checked.now (a.now ∷ out.old ∷ []) }
    requires ws { IsSpaceOf ws.old checked.now }
    ensures element { OnOk result ((u : List Letter) → IsOf checked.now a.now u
        → IsOf checked.now out.new (raised u e)) }
    ensures order { Writes result out.new (powered checked.now.table a.now e) }
    ensures err { OnErr result (out.new ≡ out.old) }
    ensures ws { IsSpaceOf ws.new checked.now }
{
    elements_of(checked);
    let table = checked.table();
    base_into(table, &mut ws.rows, &ws.zero, a, e, &mut ws.solution)?;
    let e = e.unsigned_abs();
    raise(
        table,
        &mut ws.rows,
        &ws.solution,
        e,
        &mut ws.first,
        &mut ws.second,
    )?;
    swap(out, &mut ws.first);
    Ok(())
}

/// Writes what is multiplied in a power: the vector, or its inverse for a negative exponent.
fn base_into(
    table: &Table,
    rows: &mut Rows,
    zero: &Vector,
    a: &Vector,
    e: i128,
    base: &mut Vector,
) -> Result<(), WideAt>
    requires vectors { HaveEntries (last_of table.now) (a.now ∷ base.old ∷ []) }
    requires zero { zero.now ≡ zeros (last_of table.now) }
    requires rows { HasRows table.now rows.old }
    ensures order { Writes result base.new (base_of table.now a.now e) }
    ensures length { length base.new ≡ last_of table.now }
    ensures rows { HasRows table.now rows.new }
{
    if e < 0 {
        return solve_into(table, rows, a, zero, base);
    }
    copy_into(table.last(), a, base);
    Ok(())
}

/// Writes a power to `half`. After a refusal `half` holds other values, and so does `square` in any
/// case.
fn raise(
    table: &Table,
    rows: &mut Rows,
    base: &Vector,
    e: u128,
    half: &mut Vector,
    square: &mut Vector,
) -> Result<(), WideAt>
    requires vectors { HaveEntries (last_of table.now) (base.now ∷ half.old ∷ square.old ∷ []) }
    requires rows { HasRows table.now rows.old }
    ensures order { (d : ℕ) → e ≤ d → Writes result half.new (powered_in d table.now base.now e) }
    ensures vectors { HaveEntries (last_of table.now) (half.new ∷ square.new ∷ []) }
    ensures rows { HasRows table.now rows.new }
{
    if e == 0 {
        clear(table.last(), half);
        return Ok(());
    }
    if e == 1 {
        copy_into(table.last(), base, half);
        return Ok(());
    }
    raise(table, rows, base, e / 2, half, square)?;
    multiply_into(table, rows, half, half, square)?;
    if e % 2 == 1 {
        return multiply_into(table, rows, square, base, half);
    }
    swap(half, square);
    Ok(())
}
