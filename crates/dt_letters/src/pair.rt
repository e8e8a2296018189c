//! Pairs of types.

/// The types of the two letters that a node is on.
#[derive(Clone, Copy, Debug, PartialEq, Eq)]
pub struct Pair {
    pub left: u32,
    pub right: u32,
}
