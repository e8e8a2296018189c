//! Least trees over an arena of letters, listed by letting them grow, and their polynomials.
#![tactic(auto)]

mod constants;
mod from_nothing;
mod grouping;
mod growing;
mod grown;
pub mod laws;
mod least;
mod levels;
mod monomials;
mod placing;
mod polynomial;

pub use least::least_trees;
pub use levels::tree_polys;
pub use polynomial::tree_poly;
