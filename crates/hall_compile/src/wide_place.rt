//! Where a value overflows.

use sum_compiler::SumPlace;

/// Where a value overflows 128 bits: in an overlap, in the sum plan of a level, or in the
/// polynomial that trees give, which no compile makes.
#[derive(Clone, Copy, PartialEq, Eq, Debug, Drop)]
pub enum WidePlace {
    Overlap { i: u32, j: u32, k: u32 },
    Sum { level: u32, place: SumPlace },
    Trees { k: u32 },
}
