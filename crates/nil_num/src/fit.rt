//! Sums and products that stay within `MAX`.

ghost use Rattle.std.specs.Prelude.{◌+◌, ◌*◌};
ghost use Rattle.nil_num.specs.Bound.{Overflows};
ghost use Rattle.nil_num.specs.Outcome.{Unless};

use thiserror::Error;

/// The greatest magnitude of a number.
pub const MAX: i128 = i128::MAX;

/// A result is above `MAX`.
#[derive(Debug, Clone, Copy, PartialEq, Eq, Drop, Error)]
#[error("a number is above 2^127 - 1")]
pub struct Past;

/// The sum, where it is at most `MAX`.
pub fn add_fit(a: u128, b: u128) -> Result<u128, Past>
    ensures { Unless (Overflows (a + b)) (a + b) result }
{
    match a.checked_add(b) {
        Some(sum) if sum <= MAX as u128 => Ok(sum),
        _ => Err(Past),
    }
}

/// The product, where it is at most `MAX`.
pub fn mul_fit(a: u128, b: u128) -> Result<u128, Past>
    ensures { Unless (Overflows (a * b)) (a * b) result }
{
    // One multiplication of the machine.
    if a < 1 << 63 && b < 1 << 64 {
        return Ok(a * b);
    }
    match a.checked_mul(b) {
        Some(product) if product <= MAX as u128 => Ok(product),
        _ => Err(Past),
    }
}

#[cfg(test)]
mod tests {
    use super::*;

    #[test]
    fn the_greatest_number_fits_and_the_next_does_not(rt: HostRuntime) {
        assert!(rt; add_fit(MAX as u128 - 1, 1) == Ok(MAX as u128));
        assert!(rt; add_fit(MAX as u128, 1) == Err(Past));
        assert!(rt; mul_fit(1 << 63, 1 << 63) == Ok(1 << 126));
        assert!(rt; mul_fit(1 << 64, 1 << 63) == Err(Past));
    }
}
