//! What a compile says.

use super::compiled::Compiled;
use super::wide_place::WidePlace;
use overlap_test::Overlap;

/// What a compile says of a presentation. `Inconsistent`: the two ways of the named overlap stand
/// for one word and differ.
#[derive(Drop)]
pub enum Outcome {
    Compiled(Compiled),
    Inconsistent(Overlap),
    Wide(WidePlace),
}
