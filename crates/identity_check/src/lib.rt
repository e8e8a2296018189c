//! Whether a table multiplies in a presentation, by identities between polynomials.
#![tactic(auto)]

mod adding;
mod checking;
mod comparing;
mod crossing;
mod drawing;
mod failure;
mod few;
mod halt;
mod identity;
mod last_letters;
pub mod laws;
mod listing;
mod making;
mod meeting;
mod pairs;
mod steps;
#[cfg(test)]
mod tests;
mod texts;
mod units;
mod verdict;
mod walking;

pub use checking::check;
pub use failure::{At, Failure};
pub use identity::Identity;
use std::alloc::AllocError;
pub use verdict::Verdict;

/// Want of memory.
pub type Memory = AllocError;
