//! Elements of the Heisenberg group.

ghost use Rattle.std.specs.Prelude.{◌≡◌, length, IfOk};
ghost use Rattle.group_eval.specs.Space.{IsSpaceOf};

use super::heisenberg::{heisenberg, vector};
use group_eval::{Workspace, commutator, conjugate, inverse, multiply, power, quotient, solve};
use hall_table::{Checked, WideAt};
use nil_word::Vector;
use std::alloc::Global;
use std::test::Fail;

/// The element calls.
#[derive(Clone, Copy)]
enum Call {
    Multiply,
    Solve,
    Inverse,
    Quotient,
    Commutator,
    Conjugate,
    Power(i64),
}

fn write(
    ws: &mut Workspace,
    checked: &Checked,
    which: Call,
    a: &Vector,
    b: &Vector,
    out: &mut Vector,
) -> Result<(), WideAt>
    requires left { length a.now ≡ length checked.now.pres.names }
    requires right { length b.now ≡ length checked.now.pres.names }
    requires out { length out.old ≡ length checked.now.pres.names }
    requires ws { IsSpaceOf ws.old checked.now }
{
    match which {
        Call::Multiply => multiply(ws, checked, a, b, out),
        Call::Solve => solve(ws, checked, a, b, out),
        Call::Inverse => inverse(ws, checked, a, out),
        Call::Quotient => quotient(ws, checked, a, b, out),
        Call::Commutator => commutator(ws, checked, a, b, out),
        Call::Conjugate => conjugate(ws, checked, a, b, out),
        Call::Power(e) => power(ws, checked, a, i128::from(e), out),
    }
}

/// What a call writes.
fn written(alloc: Global, which: Call, a: [i64; 3], b: [i64; 3]) -> Result<Vector, Fail> {
    let checked = heisenberg(alloc)?;
    let mut ws = Workspace::reserve(alloc, &checked)?;
    let left = vector(alloc, a)?;
    let right = vector(alloc, b)?;
    let mut out = Vector::zero(alloc, 3)?;
    write(&mut ws, &checked, which, &left, &right, &mut out)?;
    Ok(out)
}

#[rattlefmt::skip]
const ELEMENTS: [(Call, [i64; 3], [i64; 3], [i128; 3]); 13] = [
    (Call::Multiply,   [0, 1, 0], [1, 0, 0], [1, 1, 1]),
    (Call::Solve,      [0, 1, 0], [1, 0, 0], [1, -1, -1]),
    (Call::Inverse,    [0, 1, 0], [0, 0, 0], [0, -1, 0]),
    (Call::Quotient,   [0, 1, 0], [1, 0, 0], [-1, 1, -1]),
    (Call::Commutator, [0, 1, 0], [1, 0, 0], [0, 0, 1]),
    (Call::Conjugate,  [1, 0, 0], [0, 1, 0], [1, 0, -1]),
    (Call::Power(0),   [1, 1, 0], [0, 0, 0], [0, 0, 0]),
    (Call::Power(1),   [1, 1, 0], [0, 0, 0], [1, 1, 0]),
    (Call::Power(2),   [1, 1, 0], [0, 0, 0], [2, 2, 1]),
    (Call::Power(3),   [1, 1, 0], [0, 0, 0], [3, 3, 3]),
    (Call::Power(10),  [1, 1, 0], [0, 0, 0], [10, 10, 45]),
    (Call::Power(-1),  [1, 1, 0], [0, 0, 0], [-1, -1, 1]),
    (Call::Power(-2),  [1, 1, 0], [0, 0, 0], [-2, -2, 3]),
];

#[test]
fn each_call_gives_the_element_of_its_name(rt: HostRuntime) -> Result<(), Fail> {
    for (which, a, b, element) in ELEMENTS {
        let out = written(rt.alloc(), which, a, b)?;
        assert_eq!(rt; out.entries(), element.as_slice());
    }
    Ok(())
}

/// The place that a call names, and the vector that it leaves.
fn refused(alloc: Global, which: Call, a: &Vector, b: &Vector) -> Result<(WideAt, Vector), Fail>
    requires left { length a.now ≡ 3 }
    requires right { length b.now ≡ 3 }
{
    let checked = heisenberg(alloc)?;
    let mut ws = Workspace::reserve(alloc, &checked)?;
    let mut out = vector(alloc, [7, 8, 9])?;
    match write(&mut ws, &checked, which, a, b, &mut out) {
        Err(at) => Ok((at, out)),
        Ok(()) => Err("no refusal")?,
    }
}

#[test]
fn a_wide_difference_is_named_and_out_stays(rt: HostRuntime) -> Result<(), Fail> {
    let mut a = Vector::zero(rt.alloc(), 3)?;
    a.set(1, i128::MAX);
    let b = vector(rt.alloc(), [-1, 0, 0])?;
    // -1 - MAX is - 2^127
    let (at, out) = refused(rt.alloc(), Call::Solve, &a, &b)?;
    assert_eq!(rt; at, WideAt::Sum(1));
    assert_eq!(rt; out.entries(), [7, 8, 9].as_slice());
    Ok(())
}

#[test]
fn a_wide_sum_is_named_and_out_stays(rt: HostRuntime) -> Result<(), Fail> {
    let mut a = Vector::zero(rt.alloc(), 3)?;
    a.set(1, 1 << 64);
    a.set(2, 1 << 64);
    // x2*y1 overflows, and nothing before it
    let (at, out) = refused(rt.alloc(), Call::Multiply, &a, &a)?;
    assert_eq!(rt; at, WideAt::Sum(3));
    assert_eq!(rt; out.entries(), [7, 8, 9].as_slice());
    Ok(())
}
