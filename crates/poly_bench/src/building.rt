//! Polynomials from sums and products.

ghost use Rattle.std.specs.Prelude.{◌≤◌, ◌+◌};

use binom_poly::{Poly, PolyFault, add, constant, mul, var};
use std::alloc::Global;

/// 1 plus `count` variables, of which `first` is the first.
fn one_and(alloc: Global, first: u32, count: u32) -> Result<Poly, PolyFault>
    requires positive { 1 ≤ first }
    requires variables { first + count ≤ 49 }
{
    let mut sum = constant(alloc, 1)?;
    for step in 0..count {
        let variable = var(alloc, first + step)?;
        sum = add(alloc, &sum, &variable)?;
    }
    Ok(sum)
}

/// That sum to the power `exponent`.
pub(crate) fn power(alloc: Global, first: u32, count: u32, exponent: u32) -> Result<Poly, PolyFault>
    requires positive { 1 ≤ first }
    requires variables { first + count ≤ 49 }
{
    let sum = one_and(alloc, first, count)?;
    let mut power = constant(alloc, 1)?;
    for _ in 0..exponent {
        power = mul(alloc, &power, &sum)?;
    }
    Ok(power)
}
