//! Replies to query lines by a table that multiplies in its presentation: each is the right one.
//! Not promised: that a value on the way stays within 128 bits, where the reply is `wide`.
#![tactic(auto)]

mod calculator;
pub mod laws;
mod memoized;
mod remembering;
mod replies;

pub use calculator::Calculator;
pub use memoized::MemoizedCalculator;
