//! Binomial coefficients.

ghost use Rattle.std.specs.Prelude.{◌+◌, ◌≤◌};
ghost use Rattle.integer.specs.Binomial.{choose};
ghost use Rattle.nil_num.specs.Bound.{IsNumber};
ghost use Rattle.nil_num.specs.Outcome.{Unless};
ghost use Rattle.nil_num.specs.Row.{RowOverflows};

use crate::fit::Past;
use crate::row::next_binomial;

/// `x` over `m`. It is refused where a product on the way overflows, though the coefficient might
/// fit.
pub fn binomial(x: i128, m: u32) -> Result<i128, Past>
    requires number { IsNumber x }
    requires most { m ≤ 1000 }
    ensures { Unless (RowOverflows x (m + 1)) (choose x m) result }
{
    let mut entry = 1;
    for k in 0..m {
        match next_binomial(x, entry, k) {
            Some(next) => entry = next,
            None => return Err(Past),
        }
    }
    Ok(entry)
}

#[cfg(test)]
mod tests {
    use super::*;
    use crate::MAX;

    #[test]
    fn coefficients_of_small_and_great_numbers(rt: HostRuntime) {
        assert!(rt; binomial(-2, 3) == Ok(-4));
        assert!(rt; binomial(MAX, 1) == Ok(MAX));
        assert!(rt; binomial(MAX, 2) == Err(Past));
        // A product is 0 from there on.
        assert!(rt; binomial(3, 1000) == Ok(0));
    }
}
