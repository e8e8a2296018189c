//! Replies to a load of query lines, counted: how many there are of each kind, and a sum over all
//! vectors. Not promised: how long it takes.
#![tactic(auto)]

mod counts;
pub mod laws;
mod summing;
mod tallying;

pub use counts::Tally;
pub use tallying::tally;
