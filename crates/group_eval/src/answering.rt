//! Queries.

ghost use Rattle.std.specs.Prelude.{◌≡◌, length, IfOk};
ghost use Rattle.nil_num.specs.Outcome.{Gives};
ghost use Rattle.nil_word.specs.Queries.{IsShapedQuery};
ghost use Rattle.nil_pres.specs.Relations.{relations_of};
ghost use Rattle.hall_table.specs.Multiplies.{IsChecked};
ghost use Rattle.group_eval.specs.Expressions.{evaluated, IsExprOf};
ghost use Rattle.group_eval.specs.Fault.{place_of};
ghost use Rattle.group_eval.specs.Order.{both};
ghost use Rattle.group_eval.specs.Queries.{answered, reply_of, same_or_not, IsWide};
ghost use Rattle.group_eval.specs.Right.{IsRightReply};
ghost use Rattle.group_eval.specs.Space.{IsSpaceOf};

use super::Memory;
use super::eval_fault::{EvalFault, Evaluated};
use super::expressions::vector_of;
use super::laws::replies;
use super::pairing::{Pairing, pair};
use super::reply::Reply;
use super::workspace::Workspace;
use hall_table::Checked;
use nil_word::{Expr, Query, Vector};
use std::alloc::{AllocError, Global};

/// The reply to a query, by a table of level 1.
pub fn answer(
    alloc: Global,
    ws: &mut Workspace,
    checked: &Checked,
    query: &Query,
) -> Result<Reply, Memory>
    requires level { checked.now.table.level ≡ 1 }
    requires shaped { IsShapedQuery (length checked.now.pres.names) query.now }
    requires ws { IsSpaceOf ws.old checked.now }
    ensures order { IfOk result (λ reply. reply ≡ answered checked.now.table query.now) }
    // Unless it is wide, the reply is right.
    ensures right { (IsWide checked.now.table query.now → ⊥)
        → IfOk result (λ reply. IsRightReply (relations_of checked.now.pres) query.now reply) }
    ensures ws { IsSpaceOf ws.new checked.now }
{
    replies();
    // It is a lawful presentation, and a table of the form.
    let _count = checked.pres().count();
    let _level = checked.table().level();
    match evaluate(alloc, ws, checked, query) {
        Ok(reply) => Ok(reply),
        Err(EvalFault::Wide(_)) => Ok(Reply::Wide),
        Err(EvalFault::Memory) => Err(AllocError),
    }
}

/// The reply to a query, unless a value overflows 128 bits.
fn evaluate(
    alloc: Global,
    ws: &mut Workspace,
    checked: &Checked,
    query: &Query,
) -> Result<Reply, EvalFault>
    requires level { checked.now.table.level ≡ 1 }
    requires shaped { IsShapedQuery (length checked.now.pres.names) query.now }
    requires ws { IsSpaceOf ws.old checked.now }
    ensures order { Gives place_of result
        (λ r. answered checked.now.table query.now ≡ reply_of r) }
    ensures ws { IsSpaceOf ws.new checked.now }
{
    let vector = match query {
        Query::Value(expr) => vector_of(alloc, ws, checked, expr)?,
        Query::Same(left, right) => {
            let a = vector_of(alloc, ws, checked, left)?;
            let b = vector_of(alloc, ws, checked, right)?;
            return Ok(same_or_not(&a, &b));
        }
        Query::Solve(left, right) => {
            pair_of(alloc, ws, checked, Pairing::Solution, left, right)?
        }
        Query::Quotient(left, right) => {
            pair_of(alloc, ws, checked, Pairing::Quotient, left, right)?
        }
        Query::Blank => return Ok(Reply::Nothing),
    };
    Ok(Reply::Vector(vector))
}

/// What is made of two expressions, the left one evaluated first.
fn pair_of(
    alloc: Global,
    ws: &mut Workspace,
    checked: &Checked,
    pairing: Pairing,
    left: &Expr,
    right: &Expr,
) -> Evaluated
    requires left { IsExprOf checked.now left.now }
    requires right { IsExprOf checked.now right.now }
    requires ws { IsSpaceOf ws.old checked.now }
    ensures order { Gives place_of result (λ r. both checked.now.table pairing
        (evaluated checked.now.table left.now) (evaluated checked.now.table right.now) ≡ r) }
    ensures ws { IsSpaceOf ws.new checked.now }
{
    let a = vector_of(alloc, ws, checked, left)?;
    let b = vector_of(alloc, ws, checked, right)?;
    pair(alloc, ws, checked, pairing, &a, &b)
}

fn same_or_not(a: &Vector, b: &Vector) -> Reply
    ensures { result ≡ same_or_not a.now b.now }
{
    if a.entries() == b.entries() {
        Reply::Yes
    } else {
        Reply::No
    }
}
