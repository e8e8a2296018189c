//! Consistency tests of one level: each overlap `(a_k a_j) a_i = a_k (a_j a_i)` of the level's
//! generator with two above it is collected in both ways, and the two vectors are compared.
//! Not promised: that the values on the way stay within 128 bits. Where one doesn't, the overlap is
//! named.
#![tactic(auto)]

mod commuting;
mod images;
pub mod laws;
mod level_result;
mod overlap;
mod testing;
mod ways;

pub use hall_table::Memory;
pub use level_result::LevelResult;
pub use overlap::Overlap;
pub use testing::test_level;
