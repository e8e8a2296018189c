//! Nodes of trees of parts.

use binom_poly::Part;

/// A part below the parts that lead to it.
#[derive(Clone, Copy, Debug, Drop)]
pub struct Node {
    pub part: Part,
    /// The coefficient of the term whose last part this is, and 0 where there is none.
    pub coefficient: i128,
    /// How many nodes follow that are below this one.
    pub below: usize,
}
