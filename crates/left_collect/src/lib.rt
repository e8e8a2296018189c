//! Collection of words by rewriting alone: a word becomes the vector that stands for it, letter by
//! letter. No table is known here. Not promised: that a long word is answered. At most 64 letters
//! are taken, and 2^24 letters are appended.
#![tactic(auto)]

mod collect_fault;
mod collecting;
mod entries;
pub mod laws;
mod rewriting;
mod spent;
#[cfg(test)]
mod tests;

pub use collect_fault::CollectFault;
pub use collecting::{append, collect};
