//! How a stack of trees grew.

use dt_letters::Tree;

/// What a stack is after it grew, and the tree by which it grew.
#[derive(Drop)]
pub(crate) struct Grown {
    pub list: Vec<Tree>,
    pub tree: Tree,
}
