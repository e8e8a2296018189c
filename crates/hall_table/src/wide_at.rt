//! Where a product overflows 128 bits.

use thiserror::Error;

/// The place where a product overflows 128 bits: a row of a variable, or a sum. The number is that
/// of the generator.
#[derive(Clone, Copy, PartialEq, Eq, Debug, Drop, Error)]
pub enum WideAt {
    #[error("the row of x{0} overflows 128 bits")]
    RowX(u32),
    #[error("the row of y{0} overflows 128 bits")]
    RowY(u32),
    #[error("the sum of polynomial {0} overflows 128 bits")]
    Sum(u32),
}
