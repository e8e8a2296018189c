//! Least trees.

ghost use Rattle.std.specs.Prelude.{◌≡◌, ◌≤◌, ◌↔◌, map, length, All, IfOk};
ghost use Rattle.dt_letters.specs.Letters.{Letter, kind_of};
ghost use Rattle.dt_letters.specs.Allowed.{exponents_of, IsLetter, IsFrom};
ghost use Rattle.dt_letters.specs.Least.{IsLeast};
ghost use Rattle.dt_letters.specs.Listing.{IsIn, AreOnce};
ghost use Rattle.dt_letters.specs.Text.{AreListed};
ghost use Rattle.dt_letters.specs.Arena.{IsExtended, IsTreeOf, letter_in};
ghost use Rattle.dt_trees.specs.Polynomials.{IsOver};

use crate::from_nothing::ways_from_nothing;
use crate::grown::Grown;
use dt_letters::{Letters, Tree};
use nil_pres::Memory;
use std::alloc::Global;

/// The trees of ways.
pub(crate) fn trees_of(alloc: Global, ways: &[Grown]) -> Result<Vec<Tree>, Memory>
    ensures { IfOk result (λ v. v.items ≡ map (λ w. w.tree) ways.now) }
{
    ways.iter().map(|way| way.tree).collect(alloc)
}

/// The least trees of a type whose leaves have types from the level on, in the order of lists.
pub fn least_trees(
    alloc: Global,
    letters: &mut Letters,
    level: u32,
    k: u32,
) -> Result<Vec<Tree>, Memory>
    requires level { 1 ≤ level }
    requires least { 1 ≤ k }
    requires most { k ≤ length letters.old.pres.names }
    ensures kept { IsExtended letters.old letters.new }
    ensures trees { IfOk result (λ v. All (IsTreeOf letters.new) v.items) }
    ensures least { IfOk result (λ v. (t : Letter) → IsIn t (map (letter_in letters.new) v.items)
        ↔ (IsLetter (exponents_of letters.old.pres) t × IsFrom level t × IsLeast t
        × (kind_of t ≡ k))) }
    ensures over { IfOk result (λ v. All
        (IsOver (exponents_of letters.new.pres) (length letters.new.pres.names))
        (map (letter_in letters.new) v.items)) }
    ensures once { IfOk result (λ v. AreOnce (map (letter_in letters.new) v.items)) }
    ensures sorted { IfOk result (λ v. AreListed (map (letter_in letters.new) v.items)) }
{
    let _generators = letters.pres().count();
    let ways = ways_from_nothing(alloc, letters, level, k)?;
    let trees = trees_of(alloc, &ways)?;
    letters.sorted(alloc, &trees)
}
