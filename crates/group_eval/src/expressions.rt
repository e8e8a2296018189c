//! Expressions.

ghost use Rattle.std.specs.Prelude.{◌≡◌, length, OnOk, OnErr};
ghost use Rattle.nil_num.specs.Outcome.{Gives, Writes};
ghost use Rattle.nil_word.specs.Expressions.{unrolled, IsShaped};
ghost use Rattle.hall_table.specs.Multiplies.{IsChecked};
ghost use Rattle.hall_table.specs.Order.{multiplied};
ghost use Rattle.group_eval.specs.ByValues.{IsIn};
ghost use Rattle.group_eval.specs.Elements.{IsOf};
ghost use Rattle.group_eval.specs.Expressions.{evaluated, IsFrom, IsExprOf};
ghost use Rattle.group_eval.specs.Fault.{place_of};
ghost use Rattle.group_eval.specs.Order.{and_then};
ghost use Rattle.group_eval.specs.Space.{IsSpaceOf};

use super::eval_fault::{EvalFault, Evaluated};
use super::laws::expressions;
use super::multiplying::multiply;
use super::pairing::{Pairing, pair};
use super::powering::power;
use super::syllables::{append, is_zero_above, syllable_of};
use super::workspace::Workspace;
use hall_table::Checked;
use nil_word::{Expr, Vector};
use std::alloc::Global;
use std::mem::swap;

/// Writes the vector of a well-shaped expression. After a refusal `out` is as before.
pub fn eval_expr(
    alloc: Global,
    ws: &mut Workspace,
    checked: &Checked,
    expr: &Expr,
    out: &mut Vector,
) -> Result<(), EvalFault>
    requires shaped { IsShaped (length checked.now.pres.names) expr.now }
    requires level { IsFrom checked.now.table.level expr.now }
    requires ws { IsSpaceOf ws.old checked.now }
    ensures element { OnOk result (IsOf checked.now out.new (unrolled expr.now)) }
    ensures order { Gives place_of result
        (λ r. Writes r out.new (evaluated checked.now.table expr.now)) }
    ensures err { OnErr result (out.new ≡ out.old) }
    ensures ws { IsSpaceOf ws.new checked.now }
{
    expressions();
    // It is a lawful presentation, and a table of the form.
    let _count = checked.pres().count();
    let _level = checked.table().level();
    *out = vector_of(alloc, ws, checked, expr)?;
    Ok(())
}

/// The vector of an expression.
#[cycle(vectors)]
pub(super) fn vector_of(
    alloc: Global,
    ws: &mut Workspace,
    checked: &Checked,
    expr: &Expr,
) -> Evaluated
    requires expr { IsExprOf checked.now expr.now }
    requires ws { IsSpaceOf ws.old checked.now }
    ensures order { Gives place_of result (λ r. evaluated checked.now.table expr.now ≡ r) }
    ensures ws { IsSpaceOf ws.new checked.now }
{
    let n = checked.pres().count();
    match expr {
        Expr::One => Ok(Vector::zero(alloc, n)?),
        Expr::Gen(k) => Ok(Vector::unit(alloc, n, *k)?),
        Expr::Product(items) => product_of(alloc, ws, checked, items.as_slice()),
        Expr::Pow(base, e) => power_of(alloc, ws, checked, base.get(), *e),
        Expr::Conj(u, v) => {
            let left = vector_of(alloc, ws, checked, u.get())?;
            let right = vector_of(alloc, ws, checked, v.get())?;
            pair(alloc, ws, checked, Pairing::Conjugate, &left, &right)
        }
        Expr::Comm(u, v) => {
            let left = vector_of(alloc, ws, checked, u.get())?;
            let right = vector_of(alloc, ws, checked, v.get())?;
            pair(alloc, ws, checked, Pairing::Commutator, &left, &right)
        }
    }
}

/// The vector of items joined, each multiplied on as soon as it is evaluated.
#[cycle(vectors)]
fn product_of(alloc: Global, ws: &mut Workspace, checked: &Checked, items: &[Expr]) -> Evaluated
    requires items { IsExprOf checked.now (Expr.Product items.now) }
    requires ws { IsSpaceOf ws.old checked.now }
    ensures order { Gives place_of result
        (λ r. evaluated checked.now.table (Expr.Product items.now) ≡ r) }
    ensures ws { IsSpaceOf ws.new checked.now }
{
    expressions();
    // It is a lawful presentation, and a table of the form.
    let n = checked.pres().count();
    let _level = checked.table().level();
    let mut left = vector_of(alloc, ws, checked, &items[0])?;
    let mut room = Vector::zero(alloc, n)?;
    for item in &items[1..] {
        multiply_on(alloc, ws, checked, item, &mut left, &mut room)?;
    }
    Ok(left)
}

/// Multiplies an item on. A syllable whose generator is the last so far takes no multiplication.
#[cycle(vectors)]
fn multiply_on(
    alloc: Global,
    ws: &mut Workspace,
    checked: &Checked,
    item: &Expr,
    left: &mut Vector,
    room: &mut Vector,
) -> Result<(), EvalFault>
    requires item { IsExprOf checked.now item.now }
    requires left { IsIn checked.now left.old }
    requires room { length room.old ≡ length checked.now.pres.names }
    requires ws { IsSpaceOf ws.old checked.now }
    ensures order { let t = checked.now.table in
        let joined = and_then (evaluated t item.now) (multiplied t left.old) in
        Gives place_of result (λ r. Writes r left.new joined) }
    ensures room { length room.new ≡ length checked.now.pres.names }
    ensures ws { IsSpaceOf ws.new checked.now }
{
    if let Some(syllable) = syllable_of(item) {
        if is_zero_above(left, syllable.generator) {
            append(ws, checked, left, syllable)?;
            return Ok(());
        }
    }
    // Its vectors have an entry for each name of the presentation.
    let _table = checked.table();
    let right = vector_of(alloc, ws, checked, item)?;
    multiply(ws, checked, left, &right, room)?;
    swap(left, room);
    Ok(())
}

/// The vector of a power. One of a generator takes no multiplication.
#[cycle(vectors)]
fn power_of(alloc: Global, ws: &mut Workspace, checked: &Checked, base: &Expr, e: i128) -> Evaluated
    requires power { IsExprOf checked.now (Expr.Pow base.now e) }
    requires ws { IsSpaceOf ws.old checked.now }
    ensures order { Gives place_of result
        (λ r. evaluated checked.now.table (Expr.Pow base.now e) ≡ r) }
    ensures ws { IsSpaceOf ws.new checked.now }
{
    let mut out = Vector::zero(alloc, checked.pres().count())?;
    if let Expr::Gen(k) = base {
        out.set(*k, e);
        return Ok(out);
    }
    let vector = vector_of(alloc, ws, checked, base)?;
    power(ws, checked, &vector, e, &mut out)?;
    Ok(out)
}
