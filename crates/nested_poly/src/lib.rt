//! Polynomials as trees by their variables, for evaluation: terms that end with the same parts
//! share their product, and what a zero factor leads to isn't looked at.
//! Not promised: time, or that memory is there.
#![tactic(auto)]

mod building;
mod evaluation;
mod forest;
mod indexing;
mod node;
mod root;
mod split;
mod summing;
mod tail;
mod tails;
mod tree;
mod weighed;

pub use forest::Forest;
pub use weighed::Weighed;
