//! Polynomials as trees that are evaluated together.

ghost use Rattle.std.specs.Prelude.{◌≡◌, ◌<◌, ℕ, All, length, slice_index_or, [], IfOk};
ghost use Rattle.nil_num.specs.Bound.{Overflows};
ghost use Rattle.nil_num.specs.Outcome.{Unless};
ghost use Rattle.binom_poly.specs.Polynomial.{value_of};
ghost use Rattle.binom_poly.specs.Readings.{value_at, magnitude_of, IsCovered};
ghost use Rattle.nested_poly.specs.Nodes.{IsForest};
ghost use Rattle.nested_poly.specs.Trees.{forest_terms, AreNests};
ghost use Rattle.nested_poly.specs.Counts.{weighed_at, IsSumOf};

use crate::indexing::index;
use crate::root::Group;
use crate::summing::{add_groups, put_constants};
use crate::tree::Tree;
use crate::weighed::Weighed;
use binom_poly::{Memory, Poly, Rows, Wide};
use std::alloc::Global;
use std::marker::Model;

/// Polynomials as trees, with the branches at their roots by parts.
#[derive(Debug, Drop)]
pub struct Forest {
    trees: Vec<Tree>,
    groups: Vec<Group>,
}

impl Model for Forest {
    ghost use Rattle.std.specs.Prelude.{List, All};
    ghost use Rattle.binom_poly.specs.declared.term.Term.{Term};
    ghost use Rattle.nested_poly.specs.Nodes.{IsForest};
    ghost use Rattle.nested_poly.specs.Trees.{forest_terms};
    ghost use Rattle.nested_poly.specs.Roots.{IsIndex};

    ghost Value = { List (List Term) };

    ghost view = { λ f. forest_terms f.trees.items };

    ghost invariant = { λ f. All (λ t. IsForest t.nodes.items) f.trees.items
        × IsIndex f.trees.items f.groups.items };
}

/// The trees of polynomials.
fn trees_of(alloc: Global, polys: &[Poly]) -> Result<Vec<Tree>, Memory>
    ensures nests { IfOk result (λ trees. AreNests (forest_terms trees.items) polys.now) }
    ensures forms { IfOk result (λ trees. All (λ t. IsForest t.nodes.items) trees.items) }
{
    let mut trees = Vec::with_capacity(alloc, polys.len())?;
    for poly in polys {
        trees.push(Tree::of(alloc, poly)?)?;
    }
    Ok(trees)
}

impl Forest {
    /// The trees of polynomials.
    pub fn of(alloc: Global, polys: &[Poly]) -> Result<Forest, Memory>
        ensures { IfOk result (λ f. AreNests f polys.now) }
    {
        let trees = trees_of(alloc, polys)?;
        let groups = index(alloc, &trees)?;
        Ok(Forest { trees, groups })
    }

    /// The value of one polynomial where each variable has the value of its row.
    pub fn value(&self, place: usize, rows: &Rows) -> Result<i128, Wide>
        requires place { place < length self.now }
        requires covered { IsCovered rows.now (slice_index_or self.now place []) }
        ensures { let p = slice_index_or self.now place [] in
            Unless (Overflows (magnitude_of (value_at rows.now) p)) (value_of (value_at rows.now) p)
            result }
    {
        self.trees[place].value(rows)
    }

    /// Writes the sums of all polynomials where each variable has the value of its row.
    pub fn sums(&self, rows: &Rows, sums: &mut [Weighed])
        requires length { length sums.old ≡ length self.now }
        requires covered { All (IsCovered rows.now) self.now }
        ensures length { length sums.new ≡ length self.now }
        ensures sums { (k : ℕ) → k < length self.now → IsSumOf (value_at rows.now)
            (slice_index_or self.now k []) (weighed_at sums.new k) }
    {
        put_constants(&self.trees, sums);
        add_groups(&self.trees, &self.groups, rows, sums);
    }
}
