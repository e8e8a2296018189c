//! Replies to query lines by the collector. Promised: each reply. Not promised: memory, and that a
//! word is collected within the letters that may be appended.
#![tactic(auto)]

mod collector;
pub mod laws;
mod limits;
mod replies;
#[cfg(test)]
mod tests;

pub use collector::Collector;
