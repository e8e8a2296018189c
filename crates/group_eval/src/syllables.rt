//! Syllables multiplied on.

ghost use Rattle.std.specs.Prelude.{◌≡◌, ◌≤◌, ◌+◌, ◌+ℤ◌, ◌↔◌, All, IsTrue, IfSome, Ok, pos, length, unsigned_abs};
ghost use Rattle.nil_num.specs.Bound.{IsNumber, Overflows};
ghost use Rattle.nil_num.specs.Outcome.{Unless, Writes};
ghost use Rattle.hall_law.specs.Table.{IsZeroAbove, single};
ghost use Rattle.hall_table.specs.Multiplies.{Paired, IsChecked};
ghost use Rattle.hall_table.specs.Order.{multiplied};
ghost use Rattle.hall_table.specs.Tabled.{Tabled, last_of};
ghost use Rattle.hall_table.specs.Width.{HasRows};
ghost use Rattle.group_eval.specs.ByValues.{IsIn};
ghost use Rattle.group_eval.specs.Expressions.{evaluated, IsExprOf};
ghost use Rattle.group_eval.specs.Space.{IsSpaceOf};
ghost use Rattle.group_eval.specs.Syllables.{IsSyllableOf, appended};

use super::laws::last_syllables;
use super::workspace::Workspace;
use binom_poly::Rows;
use hall_table::{Checked, Table, WideAt};
use nil_num::{Past, add_fit};
use nil_word::{Expr, Vector};

/// A power of one generator.
#[derive(Clone, Copy)]
pub(super) struct Syllable {
    pub generator: u32,
    pub exponent: i128,
}

/// The syllable that an expression is, where it is one.
pub(super) fn syllable_of(expr: &Expr) -> Option<Syllable>
    ensures power { IfSome result (λ s. (t : Tabled)
        → evaluated t expr.now ≡ Ok (single (last_of t) s.generator s.exponent)) }
    ensures within { IfSome result (λ s. (c : Paired)
        → IsExprOf c expr.now → IsSyllableOf c s.generator s.exponent) }
{
    match expr {
        Expr::Gen(k) => Some(Syllable {
            generator: *k,
            exponent: 1,
        }),
        Expr::Pow(base, e) => match base.get() {
            Expr::Gen(k) => Some(Syllable {
                generator: *k,
                exponent: *e,
            }),
            _ => None,
        },
        _ => None,
    }
}

/// Whether each number is 0.
fn are_zero(numbers: &[i128]) -> bool
    ensures { IsTrue result ↔ All (λ z. z ≡ pos 0) numbers.now }
{
    numbers.iter().all(|number| *number == 0)
}

/// Whether each entry above a generator is 0.
pub(super) fn is_zero_above(vector: &Vector, k: u32) -> bool
    requires { k ≤ length vector.now }
    ensures { IsTrue result ↔ IsZeroAbove k vector.now }
{
    are_zero(&vector.entries()[k as usize..])
}

/// The sum of two numbers, where the sum of their magnitudes is one.
fn sum(a: i128, b: i128) -> Result<i128, Past>
    requires left { IsNumber a }
    requires right { IsNumber b }
    ensures { Unless (Overflows (unsigned_abs a + unsigned_abs b)) (a +ℤ b) result }
{
    match add_fit(a.unsigned_abs(), b.unsigned_abs()) {
        Ok(_) => Ok(a + b),
        Err(past) => Err(past),
    }
}

/// Multiplies a syllable on, where each entry above its generator is 0.
pub(super) fn append(
    ws: &mut Workspace,
    checked: &Checked,
    left: &mut Vector,
    syllable: Syllable,
) -> Result<(), WideAt>
    requires left { IsIn checked.now left.old }
    requires above { IsZeroAbove syllable.generator left.old }
    requires syllable { IsSyllableOf checked.now syllable.generator syllable.exponent }
    requires ws { IsSpaceOf ws.old checked.now }
    ensures order { let n = last_of checked.now.table in
        let power = single n syllable.generator syllable.exponent in
        Writes result left.new (multiplied checked.now.table left.old power) }
    ensures ws { IsSpaceOf ws.new checked.now }
{
    last_syllables();
    // It is a lawful presentation, a table of the form, and a vector of numbers.
    let _count = checked.pres().count();
    let _level = checked.table().level();
    let _entries = left.entries();
    append_into(checked.table(), &mut ws.rows, left, syllable)
}

/// Adds the exponent to the generator's entry, or names the first place that overflows.
fn append_into(
    table: &Table,
    rows: &mut Rows,
    left: &mut Vector,
    syllable: Syllable,
) -> Result<(), WideAt>
    requires left { length left.old ≡ last_of table.now }
    requires least { table.now.level ≤ syllable.generator }
    requires most { syllable.generator ≤ last_of table.now }
    requires number { IsNumber syllable.exponent }
    requires rows { HasRows table.now rows.old }
    ensures order { Writes result left.new
        (appended table.now left.old syllable.generator syllable.exponent) }
    ensures rows { HasRows table.now rows.new }
{
    // It is at least 1.
    let _level = table.level();
    let k = syllable.generator;
    table.put_x(rows, left)?;
    table.set_y(rows, k, syllable.exponent)?;
    let Ok(total) = sum(left.at(k), syllable.exponent) else {
        return Err(WideAt::Sum(k));
    };
    left.set(k, total);
    Ok(())
}
