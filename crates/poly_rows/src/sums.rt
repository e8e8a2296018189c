//! Running sums.

use binom_poly::{PolyFault, RunningSum, scale, text, var};
use std::test::Fail;

#[test]
fn a_running_sum_adds_up(rt: HostRuntime) -> Result<(), Fail> {
    let alloc = rt.alloc();
    let x = var(alloc, 1)?;
    let sum = RunningSum::new(alloc).add(alloc, &x)?.add(alloc, &x)?;
    assert_eq!(rt; text(alloc, &sum.into_poly(alloc)?)?.as_str(), "2*x1");
    Ok(())
}

#[test]
fn magnitudes_of_a_running_sum_are_summed(rt: HostRuntime) -> Result<(), Fail> {
    let alloc = rt.alloc();
    let x = var(alloc, 1)?;
    let sum = RunningSum::new(alloc).add(alloc, &scale(alloc, &x, i128::MAX)?)?;
    let refused = sum.add(alloc, &scale(alloc, &x, -1)?);
    assert_eq!(rt; refused.err(), Some(PolyFault::Wide));
    Ok(())
}
