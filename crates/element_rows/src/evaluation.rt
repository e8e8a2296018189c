//! Query lines over the Heisenberg group, and their replies.

ghost use Rattle.std.specs.Prelude.{◌≡◌, length};
ghost use Rattle.group_eval.specs.Space.{IsSpaceOf};

use super::heisenberg::heisenberg;
use group_eval::laws::first_level;
use group_eval::{Reply, Workspace, answer, eval_expr};
use hall_table::Checked;
use nil_word::{Query, Vector};
use std::alloc::Global;
use std::test::Fail;
use word_text::{read_query, vector_text};

/// The reply to a line.
fn answered(
    alloc: Global,
    ws: &mut Workspace,
    checked: &Checked,
    line: &[u8],
) -> Result<Reply, Fail>
    requires level { checked.now.table.level ≡ 1 }
    requires ws { IsSpaceOf ws.old checked.now }
{
    let query = read_query(alloc, checked.pres(), line)?;
    Ok(answer(alloc, ws, checked, &query)?)
}

fn text_of(alloc: Global, reply: &Reply) -> Result<String, Fail> {
    match reply {
        Reply::Vector(vector) => Ok(vector_text(alloc, vector)?),
        Reply::Yes => Ok(String::from_str(alloc, "yes")?),
        Reply::No => Ok(String::from_str(alloc, "no")?),
        Reply::Wide => Ok(String::from_str(alloc, "wide")?),
        Reply::Nothing => Ok(String::new(alloc)),
    }
}

/// The text of the reply to a line.
fn reply_to(alloc: Global, line: &[u8]) -> Result<String, Fail> {
    let checked = heisenberg(alloc)?;
    let mut ws = Workspace::reserve(alloc, &checked)?;
    let reply = answered(alloc, &mut ws, &checked, line)?;
    text_of(alloc, &reply)
}

#[rattlefmt::skip]
const REPLIES: [(&str, &str); 23] = [
    ("a2^3*a1^5",                 "5 3 15"),
    ("a1^5*a2^3",                 "5 3 0"),
    ("1",                         "0 0 0"),
    ("# note",                    ""),
    ("(a1*a2)^-1",                "-1 -1 1"),
    ("(a1*a2)^10",                "10 10 45"),
    ("solve a2 | a1",             "1 -1 -1"),
    ("solve a1 | a2",             "-1 1 0"),
    ("a2*a1 = a1*a2",             "no"),
    ("[a2,a1] = a3",              "yes"),
    ("a2^85070591730234615865843651857942052863*a1^2",
        "2 85070591730234615865843651857942052863 170141183460469231731687303715884105726"),
    ("a2^85070591730234615865843651857942052864*a1^2", "wide"),
    ("quotient a1 | a2",          "1 -1 0"),
    ("quotient a2 | a1",          "-1 1 -1"),
    ("a1^a2",                     "1 0 -1"),
    ("a2^a1",                     "0 1 1"),
    ("[a2,a1]^0",                 "0 0 0"),
    ("1^170141183460469231731687303715884105727", "0 0 0"),
    // the magnitudes on the way sum to 2^127, though the inverse is within
    ("a1^85070591730234615865843651857942052864*a1^-85070591730234615865843651857942052864", "wide"),
    // and these to 2^127 - 1
    ("a1^-85070591730234615865843651857942052864*a1^85070591730234615865843651857942052863", "-1 0 0"),
    // a_1^MAX without a multiplication, and its product with itself
    ("a1^170141183460469231731687303715884105727",
        "170141183460469231731687303715884105727 0 0"),
    ("a1^170141183460469231731687303715884105727*a1", "wide"),
    // the left side of an equation is evaluated too
    ("a1^170141183460469231731687303715884105727*a1 = a1", "wide"),
];

#[test]
fn lines_get_the_replies_that_were_worked_by_hand(rt: HostRuntime) -> Result<(), Fail> {
    for (line, reply) in REPLIES {
        assert_eq!(rt;
            reply_to(rt.alloc(), line.as_bytes())?.as_str(),
            reply,
            "{line}"
        );
    }
    Ok(())
}

/// Evaluates the expression of a line.
fn evaluate(
    alloc: Global,
    ws: &mut Workspace,
    checked: &Checked,
    line: &[u8],
    out: &mut Vector,
) -> Result<(), Fail>
    requires level { checked.now.table.level ≡ 1 }
    requires ws { IsSpaceOf ws.old checked.now }
    requires out { length out.old ≡ length checked.now.pres.names }
{
    first_level();
    match read_query(alloc, checked.pres(), line)? {
        Query::Value(expr) => Ok(eval_expr(alloc, ws, checked, &expr, out)?),
        _ => Err("no value")?,
    }
}

#[test]
fn an_expression_is_evaluated_into_a_vector(rt: HostRuntime) -> Result<(), Fail> {
    let alloc = rt.alloc();
    let checked = heisenberg(alloc)?;
    let mut ws = Workspace::reserve(alloc, &checked)?;
    let mut out = Vector::zero(alloc, 3)?;
    evaluate(alloc, &mut ws, &checked, b"(a1*a2)^10", &mut out)?;
    assert_eq!(rt; out.entries(), [10, 10, 45].as_slice());
    Ok(())
}
