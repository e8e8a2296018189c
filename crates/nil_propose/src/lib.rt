//! Proposers of multiplication tables as a trait with a meaning, and two plain ones. Promised: what
//! a proposer answers is its meaning, which no call changes. Not promised: that a proposed table is
//! true, or of the level that was asked for.
#![tactic(auto)]

mod forgetful;
mod listed;
mod offer;
mod proposer;
#[cfg(test)]
mod tests;

pub use forgetful::Forgetful;
pub use listed::Listed;
pub use offer::Offer;
pub use proposer::Proposer;
