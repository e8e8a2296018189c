//! What the overlaps of a level say.

use super::overlap::Overlap;

/// What the overlaps of a level say. `Differ`: the two ways of the named overlap give different
/// vectors. `Wide`: a value of the named overlap overflowed 128 bits.
#[derive(Drop)]
pub enum LevelResult {
    Agree,
    Differ(Overlap),
    Wide { j: u32, k: u32 },
}
