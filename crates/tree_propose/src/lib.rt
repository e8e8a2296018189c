//! The proposer of trees: the polynomials of the least trees as a table. Promised: which table it
//! gives. Not promised: that the table multiplies in the presentation.
#![tactic(auto)]

pub mod laws;
mod sameness;
mod table;
mod tree_proposer;

pub use tree_proposer::TreeProposer;
