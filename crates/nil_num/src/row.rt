//! Rows of binomial coefficients of one number.

ghost use Rattle.std.specs.Prelude.{◌≡◌, ◌+◌, ◌*◌, ◌<◌, ◌≤◌, MatchOption, OnOk, IfErr, unsigned_abs, length};
ghost use Rattle.integer.specs.Binomial.{choose};
ghost use Rattle.nil_num.specs.Bound.{Overflows, IsNumber};
ghost use Rattle.nil_num.specs.Row.{IsRow, OverflowsAt, written_product};

use thiserror::Error;

/// The first place whose written product is above `MAX`.
#[derive(Debug, Clone, Copy, PartialEq, Eq, Drop, Error)]
#[error("the product for place {place} is above 2^127 - 1")]
pub struct PastAt {
    pub place: usize,
}

/// `x` over `k + 1`, from `x` over `k`. The product of that and `x - k` is a multiple of `k + 1`.
pub(super) fn next_binomial(x: i128, entry: i128, k: u32) -> Option<i128>
    requires entry { entry ≡ choose x k }
    requires small { k < 1000 }
    ensures { MatchOption result
        (Overflows (unsigned_abs (written_product x k)))
        (λ next. IsNumber (written_product x k) × (next ≡ choose x (k + 1))) }
{
    let Some(factor) = x.checked_sub(k as i128) else {
        return None;
    };
    let Some(product) = entry.checked_mul(factor) else {
        return None;
    };
    if product == i128::MIN {
        return None;
    }
    let divisor = k as i128 + 1;
    Some(product / divisor)
}

/// Writes `x` over 0, `x` over 1 and so on.
///
/// A place after the first is made by a product and a division. At the first place whose product
/// overflows the call refuses, though the quotient might fit; that place and the later ones are as
/// before.
pub fn binomial_row(x: i128, row: &mut [i128]) -> Result<(), PastAt>
    requires nonempty { 0 < length row.old }
    requires short { length row.old ≤ 1001 }
    requires number { IsNumber x }
    ensures written { OnOk result (IsRow x (length row.old) row.new) }
    ensures past { IfErr result (λ past. OverflowsAt x past.place row.old row.new) }
{
    row[0] = 1;
    for place in 1..row.len() {
        let entry = row[place - 1];
        match next_binomial(x, entry, place as u32 - 1) {
            Some(next) => row[place] = next,
            None => return Err(PastAt { place }),
        }
    }
    Ok(())
}

#[cfg(test)]
mod tests {
    use super::*;
    use crate::MAX;

    #[test]
    fn a_row_of_a_negative_number_alternates(rt: HostRuntime) {
        let mut row: [i128; 4] = [0; 4];
        assert!(rt; binomial_row(-2, &mut row).is_ok());
        assert!(rt; row == [1, -2, 3, -4]);
    }

    #[test]
    fn a_refused_row_keeps_its_later_places(rt: HostRuntime) {
        let mut row: [i128; 3] = [7; 3];
        assert!(rt; binomial_row(MAX, &mut row) == Err(PastAt { place: 2 }));
        assert!(rt; row == [1, MAX, 7]);
    }
}
