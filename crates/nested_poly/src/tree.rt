//! Polynomials as trees by their variables.

ghost use Rattle.std.specs.Prelude.{◌≡◌, IfOk};
ghost use Rattle.nil_num.specs.Bound.{Overflows};
ghost use Rattle.nil_num.specs.Outcome.{Unless};
ghost use Rattle.binom_poly.specs.Polynomial.{value_of};
ghost use Rattle.binom_poly.specs.Readings.{value_at, magnitude_of, IsCovered};
ghost use Rattle.nested_poly.specs.Nodes.{IsForest, IsNestOf};
ghost use Rattle.nested_poly.specs.Trees.{tree_terms};

use crate::building::nest;
use crate::evaluation::weigh;
use crate::node::Node;
use crate::tails::{split_constant, tails_of};
use binom_poly::{Memory, Poly, Rows, Wide};
use std::alloc::Global;

/// A polynomial as a tree: terms that end with the same parts share their product.
#[derive(Debug, Drop)]
pub struct Tree {
    pub constant: i128,
    pub nodes: Vec<Node>,
}

impl Tree {
    /// The tree of a polynomial.
    pub fn of(alloc: Global, p: &Poly) -> Result<Tree, Memory>
        ensures nest { IfOk result (λ t. IsNestOf (tree_terms t) p.now) }
        ensures form { IfOk result (λ t. IsForest t.nodes.items) }
    {
        let (constant, rest) = split_constant(p.terms());
        let tails = tails_of(alloc, rest)?;
        let mut nodes = Vec::new(alloc);
        nest(alloc, &mut nodes, &tails)?;
        Ok(Tree { constant, nodes })
    }

    /// The value where each variable has the value of its row.
    pub fn value(&self, rows: &Rows) -> Result<i128, Wide>
        requires form { IsForest self.now.nodes.items }
        requires covered { IsCovered rows.now (tree_terms self.now) }
        ensures { Unless (Overflows (magnitude_of (value_at rows.now) (tree_terms self.now)))
            (value_of (value_at rows.now) (tree_terms self.now)) result }
    {
        let sum = weigh(&self.nodes, rows)?;
        let whole = sum.plus_number(self.constant)?;
        Ok(whole.value)
    }
}
