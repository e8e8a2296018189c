//! The roots of trees by their parts.

ghost use Rattle.std.specs.Prelude.{◌≡◌, ◌<◌, List, All, length, IfOk, OnOk};
ghost use Rattle.nested_poly.specs.declared.tree.Tree.{Tree};
ghost use Rattle.nested_poly.specs.Nodes.{IsForest};
ghost use Rattle.nested_poly.specs.Roots.{AddsRoot, AddsTree, IsIndex};
ghost use Rattle.nested_poly.specs.Trees.{nodes_at};

use crate::node::Node;
use crate::root::{Group, Root};
use crate::tree::Tree;
use binom_poly::{Memory, Part};
use std::alloc::Global;

/// Adds a root to those of its part.
fn add_root(alloc: Global, groups: &mut Vec<Group>, part: Part, root: Root) -> Result<(), Memory>
    ensures { OnOk result (AddsRoot groups.old.items groups.new.items part root) }
{
    for place in 0..groups.len() {
        if groups[place].part == part {
            groups[place].roots.push(root)?;
            return Ok(());
        }
    }
    let mut roots = Vec::new(alloc);
    roots.push(root)?;
    groups.push(Group { part, roots })?;
    Ok(())
}

/// Adds the roots of a tree.
fn add_tree(
    alloc: Global,
    groups: &mut Vec<Group>,
    place: usize,
    nodes: &[Node],
) -> Result<(), Memory>
    requires { IsForest nodes.now }
    ensures { OnOk result ((ts : List Tree) → place < length ts → nodes_at ts place ≡ nodes.now
        → AddsTree ts groups.old.items groups.new.items place) }
{
    let mut rest = nodes;
    'roots: while let Some((node, after)) = rest.split_first() {
        let start = nodes.len() - rest.len();
        add_root(alloc, groups, node.part, Root { place, start })?;
        let (_, next) = after.split_at(node.below);
        rest = next;
    }
    Ok(())
}

/// The roots of trees by their parts.
pub fn index(alloc: Global, trees: &[Tree]) -> Result<Vec<Group>, Memory>
    requires { All (λ t. IsForest t.nodes.items) trees.now }
    ensures { IfOk result (λ groups. IsIndex trees.now groups.items) }
{
    let mut groups = Vec::new(alloc);
    for place in 0..trees.len() {
        add_tree(alloc, &mut groups, place, &trees[place].nodes)?;
    }
    Ok(groups)
}
