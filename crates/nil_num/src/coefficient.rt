//! The coefficients of a product of two binomial coefficients.

ghost use Rattle.std.specs.Prelude.{◌+◌, ◌*◌, ◌-◌, ◌/◌, ◌<◌, ◌≤◌, max};
ghost use Rattle.integer.specs.Binomial.{ways};
ghost use Rattle.nil_num.specs.Bound.{Fits, Overflows};
ghost use Rattle.nil_num.specs.Outcome.{Unless};

use crate::fit::{Past, add_fit, mul_fit};

/// The quotient of a product that may be wider than 128 bits: no step exceeds the answer by more
/// than a small product.
fn scaled(number: u128, factor: u32, divisor: u32) -> Result<u128, Past>
    requires factor { factor ≤ 1000 }
    requires divisor { 0 < divisor }
    requires small { divisor ≤ 1000 }
    ensures { Unless (Overflows (number * factor / divisor)) (number * factor / divisor) result }
{
    let divisor = divisor as u128;
    let factor = factor as u128;
    let whole = mul_fit(number / divisor, factor)?;
    add_fit(whole, number % divisor * factor / divisor)
}

/// `start` times `n + m` over `m`. The products on the way ascend, so one that overflows shows that
/// the last does.
fn times_binomial(start: u128, n: u32, m: u32) -> Result<u128, Past>
    requires within { Fits start }
    requires small { n + m ≤ 1000 }
    ensures { Unless (Overflows (start * ways (n + m) m)) (start * ways (n + m) m) result }
{
    let mut product = start;
    for j in 0..m {
        product = scaled(product, n + j + 1, j + 1)?;
    }
    Ok(product)
}

/// The coefficient of `x` over `k` in the product of `x` over `a` and `x` over `b`.
pub fn product_coefficient(a: u32, b: u32, k: u32) -> Result<u128, Past>
    requires from { max a b ≤ k }
    requires to { k ≤ a + b }
    requires small { a + b ≤ 1000 }
    ensures { Unless (Overflows (ways k a * ways a (k - b))) (ways k a * ways a (k - b)) result }
{
    let inner = times_binomial(1, a + b - k, k - b)?;
    times_binomial(inner, a, k - a)
}

#[cfg(test)]
mod tests {
    use super::*;

    #[test]
    fn coefficients_of_small_products(rt: HostRuntime) {
        // x * x is x and twice x over 2
        assert!(rt; product_coefficient(1, 1, 1) == Ok(1));
        assert!(rt; product_coefficient(1, 1, 2) == Ok(2));
        // x over 2 times x over 3: 3, 12 and 10
        assert!(rt; product_coefficient(2, 3, 3) == Ok(3));
        assert!(rt; product_coefficient(2, 3, 4) == Ok(12));
        assert!(rt; product_coefficient(2, 3, 5) == Ok(10));
        assert!(rt; product_coefficient(500, 500, 1000) == Err(Past));
    }

    #[test]
    fn a_coefficient_near_the_limit_is_not_refused_on_the_way(rt: HostRuntime) {
        // 130 over 65 is 95,067,625,827,960,698,145,584,333,020,095,113,100
        assert!(rt; product_coefficient(65, 65, 130) == Ok(95067625827960698145584333020095113100));
        assert!(rt; product_coefficient(66, 66, 132) == Err(Past));
    }
}
