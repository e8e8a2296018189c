//! The value of nodes at the values of rows.

ghost use Rattle.std.specs.Prelude.{◌≡◌, ◌≢◌, ◌≤◌, pos, MatchResult};
ghost use Rattle.integer.specs.Binomial.{choose};
ghost use Rattle.nil_num.specs.Bound.{Overflows};
ghost use Rattle.binom_poly.specs.Readings.{value_at, IsCovered};
ghost use Rattle.nested_poly.specs.Nodes.{branch_terms, terms_of, IsForest, Weighs};

use crate::node::Node;
use crate::weighed::Weighed;
use binom_poly::{Rows, Wide};

/// The terms of a node whose factor isn't 0, and of those below it.
#[cycle(weigh)]
pub fn weigh_branch(node: &Node, below: &[Node], factor: i128, rows: &Rows) -> Result<Weighed, Wide>
    requires form { IsForest below.now }
    requires covered { IsCovered rows.now (branch_terms node.now (terms_of below.now)) }
    requires factor { factor ≡ choose (value_at rows.now node.now.part.var) node.now.part.exp }
    requires nonzero { factor ≢ pos 0 }
    ensures { Weighs (value_at rows.now) (branch_terms node.now (terms_of below.now)) result }
{
    let lower = weigh(below, rows)?;
    let whole = lower.plus_number(node.coefficient)?;
    whole.times(factor)
}

/// The terms of nodes.
#[cycle(weigh)]
pub fn weigh(nodes: &[Node], rows: &Rows) -> Result<Weighed, Wide>
    requires form { IsForest nodes.now }
    requires covered { IsCovered rows.now (terms_of nodes.now) }
    ensures { Weighs (value_at rows.now) (terms_of nodes.now) result }
{
    let mut sum = Weighed::NONE;
    let mut rest = nodes;
    'siblings: while let Some((node, after)) = rest.split_first() {
        let (below, next) = after.split_at(node.below);
        let factor = rows.at(node.part.var, node.part.exp);
        // Most factors are 0, and cost no more than this.
        if factor != 0 {
            let more = weigh_branch(node, below, factor, rows)?;
            sum = sum.plus(more)?;
        }
        rest = next;
    }
    Ok(sum)
}
