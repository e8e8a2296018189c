//! Loads of query lines, counted.

ghost use Rattle.std.specs.Prelude.{◌≡◌, IfOk};

use super::compiling::compiled;
use super::heisenberg::heisenberg;
use hall_table::Checked;
use load_tally::{Tally, tally};
use nil_pres::{Builder, Presentation};
use query_replies::Calculator;
use std::alloc::Global;
use std::test::Fail;

fn one_name(alloc: Global) -> Result<Presentation, Fail> {
    let mut builder = Builder::new(alloc)?;
    builder.add_name("a1")?;
    Ok(builder.finish().ok_or("no name")?)
}

/// The infinite cyclic group with its table.
fn cyclic(alloc: Global) -> Result<Checked, Fail>
    ensures { IfOk result (λ c. c.table.level ≡ 1) }
{
    compiled(alloc, &one_name(alloc)?)
}

fn counted(alloc: Global, checked: Checked, queries: &[u8]) -> Result<Tally, Fail>
    requires { checked.table.level ≡ 1 }
{
    let mut calculator = Calculator::of(alloc, checked)?;
    Ok(tally(alloc, &mut calculator, queries)?)
}

#[test]
fn a_load_over_the_heisenberg_group(rt: HostRuntime) -> Result<(), Fail> {
    let queries = b"a1*a2\na2*a1\n[a2,a1] = a3\na1 = a2\nx\nsolve a1 | a2\na3";
    let tally = counted(rt.alloc(), heisenberg(rt.alloc())?, queries)?;
    // 1 1 0, 1 1 1, yes, no, a fault, -1 1 0, and a piece that isn't a line: 3 + 6 + 1.
    assert_eq!(rt;
        tally.text(rt.alloc())?.as_str(),
        "queries 6 vectors 3 yes 1 no 1 wide 0 sum 10"
    );
    Ok(())
}

#[test]
fn a_negative_sum_has_a_remainder(rt: HostRuntime) -> Result<(), Fail> {
    let tally = counted(
        rt.alloc(),
        cyclic(rt.alloc())?,
        b"(a1^3*a1^-3)*(a1^-2*a1^-1)\n",
    )?;
    assert_eq!(rt;
        tally.text(rt.alloc())?.as_str(),
        "queries 1 vectors 1 yes 0 no 0 wide 0 sum 999999997"
    );
    Ok(())
}
