//! Three polynomials put into one.

ghost use Rattle.std.specs.Prelude.{◌≤◌};

use super::building::power;
use binom_poly::{PolyFault, mul};
use poly_subst::{Assign, substitute};
use std::alloc::Global;
use std::fmt;

/// The numbers of terms of three polynomials, of the one that they are put into, and of the result.
#[derive(Debug, Drop)]
pub struct Substitution {
    first: usize,
    second: usize,
    third: usize,
    into: usize,
    result: usize,
}

impl fmt::Display for Substitution {
    fn fmt<W: fmt::Write>(&self, f: &mut fmt::Formatter<W>) -> fmt::Result {
        write!(
            f,
            "{}, {}, {} into {}: {}",
            self.first, self.second, self.third, self.into, self.result
        )
    }
}

/// Squares of 1 plus `count` variables each, put in place of x1, x2 and x3 in the product of the
/// square of 1 + x4 + x5 + x6 and 1 + x1 + x2 + x3 to the power `exponent`.
pub(crate) fn put_three(alloc: Global, exponent: u32, count: u32) -> Result<Substitution, PolyFault>
    requires { count ≤ 40 }
{
    let into = mul(
        alloc,
        &power(alloc, 1, 3, exponent)?,
        &power(alloc, 4, 3, 2)?,
    )?;
    let first = power(alloc, 7, count, 2)?;
    let second = power(alloc, 8, count, 2)?;
    let third = power(alloc, 9, count, 2)?;
    let (in_first, in_second, in_third) = (
        first.terms().len(),
        second.terms().len(),
        third.terms().len(),
    );
    let list = [
        Assign { var: 1, to: first },
        Assign { var: 2, to: second },
        Assign { var: 3, to: third },
    ];
    let result = substitute(alloc, &into, list.as_slice())?;
    Ok(Substitution {
        first: in_first,
        second: in_second,
        third: in_third,
        into: into.terms().len(),
        result: result.terms().len(),
    })
}
