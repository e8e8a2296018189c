//! The replies to the lines that were asked last, kept for when they are asked again.
//! Not promised: that memory suffices to keep one.
#![tactic(auto)]

mod answers;
pub mod laws;
mod room;
#[cfg(test)]
mod tests;

pub use answers::Answers;
pub use room::ROOM;
