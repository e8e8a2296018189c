//! What comes of a level.

use super::origin::Origin;
use super::wide_place::WidePlace;
use hall_table::Checked;
use overlap_test::Overlap;

/// What comes of a level: its table and where that comes from, or what ends the compile.
#[derive(Drop)]
pub enum Level {
    Chosen(Origin, Checked),
    Inconsistent(Overlap),
    Wide(WidePlace),
}
