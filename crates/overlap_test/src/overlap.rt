//! Overlaps whose two ways differ.

use nil_word::Vector;

/// The two vectors of an overlap, with 1 at place `i`: `left` is that of `(a_k a_j) a_i`, collected
/// from its first two letters, and `right` that of `a_k (a_j a_i)`, from its last two.
#[derive(Drop)]
pub struct Overlap {
    pub i: u32,
    pub j: u32,
    pub k: u32,
    pub left: Vector,
    pub right: Vector,
}
