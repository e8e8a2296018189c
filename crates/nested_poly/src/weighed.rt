//! Sums with the magnitudes of their terms.

ghost use Rattle.std.specs.Prelude.{◌≡◌, ◌+◌, ◌*◌, ◌+ℤ◌, ◌*ℤ◌, ℕ, ℤ, List, MatchResult, IfOk, unsigned_abs};
ghost use Rattle.binom_poly.specs.declared.term.Term.{Term};
ghost use Rattle.nil_num.specs.Bound.{Overflows, overflows};
ghost use Rattle.nested_poly.specs.Nodes.{IsWeighed, Weighs};
ghost use Rattle.nested_poly.specs.Counts.{IsTotal, Counts};

use binom_poly::Wide;
use nil_num::{add_fit, mul_fit};

/// The value of terms, and the sum of the magnitudes of their values.
#[derive(Clone, Copy, Debug, Drop)]
pub struct Weighed {
    pub value: i128,
    pub magnitude: u128,
}

impl Weighed {
    /// No terms.
    pub const NONE: Weighed = Weighed {
        value: 0,
        magnitude: 0,
    };

    /// Terms whose magnitudes overflow.
    const WIDE: Weighed = Weighed {
        value: 0,
        magnitude: 1 << 127,
    };

    /// A constant.
    pub fn of(number: i128) -> Weighed
        ensures value { result.value ≡ number }
        ensures magnitude { result.magnitude ≡ unsigned_abs number }
    {
        Weighed {
            value: number,
            magnitude: number.unsigned_abs(),
        }
    }

    /// Whether the magnitudes overflow.
    pub fn overflows(self) -> bool
        ensures { result ≡ overflows self.magnitude }
    {
        self.magnitude >= 1 << 127
    }

    /// These terms and others. Once the magnitudes overflow they stay above the limit.
    pub fn with(self, more: Result<Weighed, Wide>) -> Weighed
        requires this { IsTotal self }
        requires more { IfOk more IsWeighed }
        ensures total { IsTotal result }
        ensures counts { (a : ℕ → ℤ) (ts : List Term) → Weighs a ts more → Counts a ts self result }
    {
        if self.magnitude >= 1 << 127 {
            return self;
        }
        let Ok(more) = more else {
            return Weighed::WIDE;
        };
        match self.plus(more) {
            Ok(sum) => sum,
            Err(_) => Weighed::WIDE,
        }
    }

    /// These terms and a number.
    pub fn plus_number(self, number: i128) -> Result<Weighed, Wide>
        requires { IsWeighed self }
        ensures { MatchResult result
            (λ sum. (sum.value ≡ self.value +ℤ number)
            × (sum.magnitude ≡ self.magnitude + unsigned_abs number) × IsWeighed sum)
            (λ _. Overflows (self.magnitude + unsigned_abs number)) }
    {
        let magnitude = add_fit(self.magnitude, number.unsigned_abs())?;
        Ok(Weighed {
            value: self.value + number,
            magnitude,
        })
    }

    /// These terms and others.
    pub fn plus(self, other: Weighed) -> Result<Weighed, Wide>
        requires these { IsWeighed self }
        requires those { IsWeighed other }
        ensures { MatchResult result
            (λ sum. (sum.value ≡ self.value +ℤ other.value)
            × (sum.magnitude ≡ self.magnitude + other.magnitude) × IsWeighed sum)
            (λ _. Overflows (self.magnitude + other.magnitude)) }
    {
        let magnitude = add_fit(self.magnitude, other.magnitude)?;
        Ok(Weighed {
            value: self.value + other.value,
            magnitude,
        })
    }

    /// Each term times a factor.
    pub fn times(self, factor: i128) -> Result<Weighed, Wide>
        requires { IsWeighed self }
        ensures { MatchResult result
            (λ product. (product.value ≡ factor *ℤ self.value)
            × (product.magnitude ≡ unsigned_abs factor * self.magnitude) × IsWeighed product)
            (λ _. Overflows (unsigned_abs factor * self.magnitude)) }
    {
        let magnitude = mul_fit(factor.unsigned_abs(), self.magnitude)?;
        Ok(Weighed {
            value: factor * self.value,
            magnitude,
        })
    }
}
