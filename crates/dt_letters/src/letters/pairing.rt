//! The pairs of types that have a type in their right side, type by type.

ghost use Rattle.std.specs.Prelude.{◌≡◌, ℕ, ◌<◌, ◌≤◌, ◌++◌, [], length, get_or, IfOk, OnOk, All};
ghost use Rattle.dt_letters.specs.Allowed.{exponents_of};
ghost use Rattle.dt_letters.specs.Pairs.{row_in, HasPairs, named};

use super::Letters;
use crate::pair::Pair;
use nil_pres::{Memory, Presentation, Syllable};
use std::alloc::Global;

impl Letters {
    ghost use Rattle.dt_letters.specs.Pairs.{pairs_of};

    /// The pairs of types with the type in their right side, where it is at most 48: by the left
    /// type, and then by the right one.
    pub fn pairs(&self, k: u32) -> &[Pair]
        requires { k ≤ 48 }
        ensures { result.now ≡ pairs_of (exponents_of self.now.pres) k }
    {
        &self.pairs[k as usize]
    }
}

/// A row without pairs for each type.
fn empty_rows(alloc: Global) -> Result<Vec<Vec<Pair>>, Memory>
    ensures count { IfOk result (λ rows. length rows.items ≡ 49) }
    ensures none { IfOk result (λ rows. (k : ℕ) → k < 49 → row_in rows.items k ≡ []) }
{
    let mut rows = Vec::new(alloc);
    for _ in 0..49_u32 {
        rows.push(Vec::new(alloc))?;
    }
    Ok(rows)
}

/// Appends the pair to the row of each type in the right side.
fn put_pair(right: &[Syllable], pair: Pair, rows: &mut Vec<Vec<Pair>>) -> Result<(), Memory>
    requires count { length rows.old.items ≡ 49 }
    requires types { All (λ s. s.number < 49) right.now }
    ensures count { length rows.new.items ≡ 49 }
    ensures rows { OnOk result ((k : ℕ) → k < 49
        → row_in rows.new.items k ≡ row_in rows.old.items k ++ named pair k right.now) }
{
    for syllable in right {
        rows[syllable.number as usize].push(pair)?;
    }
    Ok(())
}

/// For each type the pairs with it in their right side.
pub(super) fn all_pairs(alloc: Global, pres: &Presentation) -> Result<Vec<Vec<Pair>>, Memory>
    ensures { IfOk result (λ rows. HasPairs (exponents_of pres.now) rows.items) }
{
    let mut rows = empty_rows(alloc)?;
    for left in 1..pres.count() + 1 {
        for right in 1..left {
            put_pair(
                pres.right_side(left, right),
                Pair { left, right },
                &mut rows,
            )?;
        }
    }
    Ok(rows)
}
