//! The sums of all trees at the values of rows.

ghost use Rattle.std.specs.Prelude.{◌≡◌, ◌≢◌, ◌<◌, ℕ, ℤ, pos, [], All, length, slice_index_or};
ghost use Rattle.integer.specs.Binomial.{choose};
ghost use Rattle.binom_poly.specs.Readings.{value_at, IsCovered};
ghost use Rattle.nested_poly.specs.Nodes.{terms_of, Weighs};
ghost use Rattle.nested_poly.specs.Roots.{first_branch, roots_at, groups_at, HasFirst, IsRoot, AreRoots, AreCovered};
ghost use Rattle.nested_poly.specs.Counts.{weighed_at, AreTotals, Counts, IsPartial};
ghost use Rattle.nested_poly.specs.Trees.{nodes_at, forest_terms};

use crate::evaluation::weigh_branch;
use crate::node::Node;
use crate::root::{Group, Root};
use crate::tree::Tree;
use crate::weighed::Weighed;
use binom_poly::{Part, Rows, Wide};

/// The first branch of nodes, whose factor isn't 0.
fn weigh_first(nodes: &[Node], part: Part, factor: i128, rows: &Rows) -> Result<Weighed, Wide>
    requires form { HasFirst part nodes.now }
    requires covered { IsCovered rows.now (first_branch nodes.now) }
    requires factor { factor ≡ choose (value_at rows.now part.var) part.exp }
    requires nonzero { factor ≢ pos 0 }
    ensures { Weighs (value_at rows.now) (first_branch nodes.now) result }
{
    let Some((node, after)) = nodes.split_first() else {
        return Ok(Weighed::NONE);
    };
    let (below, _) = after.split_at(node.below);
    weigh_branch(node, below, factor, rows)
}

/// Adds the branches of a part whose factor isn't 0 to the sums of their trees.
fn add_roots(
    trees: &[Tree],
    part: Part,
    roots: &[Root],
    factor: i128,
    rows: &Rows,
    sums: &mut [Weighed],
)
    requires length { length sums.old ≡ length trees.now }
    requires totals { AreTotals sums.old }
    requires roots { All (IsRoot trees.now part) roots.now }
    requires covered { AreCovered rows.now trees.now roots.now }
    requires factor { factor ≡ choose (value_at rows.now part.var) part.exp }
    requires nonzero { factor ≢ pos 0 }
    ensures length { length sums.new ≡ length trees.now }
    ensures totals { AreTotals sums.new }
    ensures sums { (k : ℕ) → Counts (value_at rows.now) (roots_at trees.now k roots.now)
        (weighed_at sums.old k) (weighed_at sums.new k) }
{
    for root in roots {
        let (_, nodes) = trees[root.place].nodes.split_at(root.start);
        let more = weigh_first(nodes, part, factor, rows);
        sums[root.place] = sums[root.place].with(more);
    }
}

/// Adds the branches of a part to the sums of their trees.
fn add_group(trees: &[Tree], part: Part, roots: &[Root], rows: &Rows, sums: &mut [Weighed])
    requires length { length sums.old ≡ length trees.now }
    requires totals { AreTotals sums.old }
    requires roots { All (IsRoot trees.now part) roots.now }
    requires covered { AreCovered rows.now trees.now roots.now }
    ensures length { length sums.new ≡ length trees.now }
    ensures totals { AreTotals sums.new }
    ensures sums { (k : ℕ) → Counts (value_at rows.now) (roots_at trees.now k roots.now)
        (weighed_at sums.old k) (weighed_at sums.new k) }
{
    if roots.is_empty() {
        return;
    }
    let factor = rows.at(part.var, part.exp);
    // Most factors are 0, and cost no more than this.
    if factor == 0 {
        return;
    }
    add_roots(trees, part, roots, factor, rows, sums);
}

/// Writes the constants of trees.
pub fn put_constants(trees: &[Tree], sums: &mut [Weighed])
    requires { length sums.old ≡ length trees.now }
    ensures length { length sums.new ≡ length trees.now }
    ensures totals { AreTotals sums.new }
    ensures begun { (a : ℕ → ℤ) (k : ℕ) → k < length trees.now → IsPartial a
        (slice_index_or (forest_terms trees.now) k []) (weighed_at sums.new k)
        (terms_of (nodes_at trees.now k)) }
{
    for place in 0..trees.len() {
        sums[place] = Weighed::of(trees[place].constant);
    }
}

/// Adds the branches of all parts to the sums of their trees.
pub fn add_groups(trees: &[Tree], groups: &[Group], rows: &Rows, sums: &mut [Weighed])
    requires length { length sums.old ≡ length trees.now }
    requires totals { AreTotals sums.old }
    requires roots { AreRoots trees.now groups.now }
    requires covered { (k : ℕ) → k < length trees.now
        → IsCovered rows.now (groups_at trees.now k groups.now) }
    ensures length { length sums.new ≡ length trees.now }
    ensures sums { (k : ℕ) → Counts (value_at rows.now) (groups_at trees.now k groups.now)
        (weighed_at sums.old k) (weighed_at sums.new k) }
{
    for group in groups {
        add_group(trees, group.part, &group.roots, rows, sums);
    }
}
