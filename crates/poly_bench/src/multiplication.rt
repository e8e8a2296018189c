//! A product of two powers.

ghost use Rattle.std.specs.Prelude.{◌≤◌, ◌+◌};

use super::building::power;
use binom_poly::{PolyFault, mul};
use std::alloc::Global;
use std::fmt;

/// The numbers of terms of two factors and of their product.
#[derive(Debug, Drop)]
pub struct Product {
    left: usize,
    right: usize,
    product: usize,
}

impl fmt::Display for Product {
    fn fmt<W: fmt::Write>(&self, f: &mut fmt::Formatter<W>) -> fmt::Result {
        write!(f, "{} by {}: {}", self.left, self.right, self.product)
    }
}

/// The power of 1 plus the first `count` variables times that of 1 plus the `count` variables from
/// `second`.
pub(crate) fn multiply(
    alloc: Global,
    count: u32,
    exponent: u32,
    second: u32,
) -> Result<Product, PolyFault>
    requires first { 1 + count ≤ 49 }
    requires positive { 1 ≤ second }
    requires variables { second + count ≤ 49 }
{
    let left = power(alloc, 1, count, exponent)?;
    let right = power(alloc, second, count, exponent)?;
    let product = mul(alloc, &left, &right)?;
    Ok(Product {
        left: left.terms().len(),
        right: right.terms().len(),
        product: product.terms().len(),
    })
}
