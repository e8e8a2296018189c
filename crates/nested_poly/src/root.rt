//! Branches at the roots of trees.

use binom_poly::Part;

/// Where a branch at the root of a tree stands.
#[derive(Clone, Copy, Debug, Drop)]
pub struct Root {
    /// The place of the tree.
    pub place: usize,
    /// The place of the branch's node in it.
    pub start: usize,
}

/// The branches of one part, over all trees.
#[derive(Debug, Drop)]
pub struct Group {
    pub part: Part,
    pub roots: Vec<Root>,
}
