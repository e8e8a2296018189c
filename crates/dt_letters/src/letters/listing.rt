//! The order of trees in lists.

ghost use Rattle.std.specs.Prelude.{◌≡◌, ◌^◌, ◌<◌, All, map, string_bytes, IfOk, IsPermutation};

use super::Letters;
use crate::form::Form;
use crate::tree::Tree;
use nil_pres::Memory;
use std::alloc::Global;

/// A tree, and what its place in a list goes by.
#[derive(Drop)]
struct Row {
    leaves: usize,
    text: String,
    tree: Tree,
}

impl Letters {
    ghost use Rattle.dt_letters.specs.Letters.{leaf_count};
    ghost use Rattle.dt_letters.specs.Text.{text_of, AreListed};
    ghost use Rattle.dt_letters.specs.Arena.{IsTreeOf, letter_in};

    /// How many leaves the letter has, each place counted.
    pub fn leaf_count(&self, a: Tree) -> usize
        requires tree { IsTreeOf self.now a }
        requires small { leaf_count (letter_in self.now a) < 2 ^ 64 }
        ensures { result ≡ leaf_count (letter_in self.now a) }
    {
        match self.form(a) {
            Form::Leaf { .. } => 1,
            Form::Node { left, right, .. } => self.leaf_count(left) + self.leaf_count(right),
        }
    }

    /// The tree with its number of leaves and its text.
    fn row(&self, alloc: Global, tree: Tree) -> Result<Row, Memory>
        requires { IsTreeOf self.now tree }
        ensures tree { IfOk result (λ r. r.tree ≡ tree) }
        ensures leaves { IfOk result (λ r. r.leaves ≡ leaf_count (letter_in self.now tree)) }
        ensures text { IfOk result (λ r. string_bytes r.text ≡ text_of (letter_in self.now tree)) }
    {
        let text = self.text(alloc, tree)?;
        let _bytes = text.as_str().len();
        let leaves = self.leaf_count(tree);
        Ok(Row { leaves, text, tree })
    }

    /// The trees in the order of lists: by the number of leaves, then by the bytes of their text.
    pub fn sorted(&self, alloc: Global, trees: &[Tree]) -> Result<Vec<Tree>, Memory>
        requires { All (IsTreeOf self.now) trees.now }
        ensures permutation { IfOk result (λ v. IsPermutation trees.now v.items) }
        ensures sorted { IfOk result (λ v. AreListed (map (letter_in self.now) v.items)) }
    {
        let mut rows = Vec::new(alloc);
        for tree in trees {
            rows.push(self.row(alloc, *tree)?)?;
        }
        rows.sort_unstable_by(|a, b| a.leaves.cmp(&b.leaves).then(a.text.cmp(&b.text)));
        let sorted = trees_of(alloc, &rows)?;
        Ok(sorted)
    }
}

/// The trees of rows.
fn trees_of(alloc: Global, rows: &[Row]) -> Result<Vec<Tree>, Memory>
    ensures { IfOk result (λ v. v.items ≡ map (λ r. r.tree) rows.now) }
{
    rows.iter().map(|row| row.tree).collect(alloc)
}
