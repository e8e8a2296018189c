//! The ways in which the empty stack grows, where those by lower types are known.

ghost use Rattle.std.specs.Prelude.{◌≡◌, ◌+◌, ◌<◌, ◌≤◌, [], length, IfOk, OnOk};
ghost use Rattle.dt_letters.specs.Allowed.{exponents_of};
ghost use Rattle.dt_letters.specs.Listing.{grown};
ghost use Rattle.dt_letters.specs.Arena.{IsExtended};
ghost use Rattle.dt_trees.specs.Ways.{AreWays, Gains, pair_ways};
ghost use Rattle.dt_trees.specs.Known.{AreKnown};

use crate::growing::{grow_rights, place_leaves};
use crate::grown::Grown;
use dt_letters::Letters;
use nil_pres::Memory;
use std::alloc::Global;

/// Appends the ways to grow by a node on letters of two types, where those by the left letters are
/// known.
fn grow_known_pair(
    alloc: Global,
    letters: &mut Letters,
    level: u32,
    known: &[Vec<Grown>],
    p: u32,
    q: u32,
    k: u32,
    ways: &mut Vec<Grown>,
) -> Result<(), Memory>
    requires level { 1 ≤ level }
    requires least { 1 ≤ q }
    requires falls { q < p }
    requires below { p < k }
    requires most { k ≤ 48 }
    requires next { k ≡ level + length known.now }
    requires known { AreKnown letters.old (exponents_of letters.old.pres) level known.now }
    ensures kept { IsExtended letters.old letters.new }
    ensures gains { OnOk result (Gains letters.old ways.old.items letters.new ways.new.items
        (pair_ways (exponents_of letters.old.pres) level [] k p q)) }
{
    // Nothing grows by such a right letter.
    if q < level {
        return Ok(());
    }
    let limit = letters.exponent(q, p, k);
    if limit == 0 {
        return Ok(());
    }
    let lefts = &known[(p - level) as usize];
    grow_rights(alloc, letters, level, lefts, q, k, limit, ways)
}

/// The ways in which the empty stack grows by a tree of a type, where those by the types from the
/// level on below it are known.
pub(crate) fn grow_from_nothing(
    alloc: Global,
    letters: &mut Letters,
    level: u32,
    known: &[Vec<Grown>],
    k: u32,
) -> Result<Vec<Grown>, Memory>
    requires level { 1 ≤ level }
    requires most { k ≤ 48 }
    requires next { k ≡ level + length known.now }
    requires known { AreKnown letters.old (exponents_of letters.old.pres) level known.now }
    ensures kept { IsExtended letters.old letters.new }
    ensures ways { IfOk result (λ ws. AreWays letters.new ws.items
        (grown (exponents_of letters.old.pres) level k [] k)) }
{
    let stack = Vec::new(alloc);
    let mut ways = Vec::new(alloc);
    place_leaves(alloc, letters, level, k, &stack, &mut ways)?;
    for place in 0..letters.pairs(k).len() {
        let pair = letters.pairs(k)[place];
        grow_known_pair(
            alloc, letters, level, known, pair.left, pair.right, k, &mut ways,
        )?;
    }
    Ok(ways)
}

/// The ways in which the empty stack grows by a tree of the type.
pub(crate) fn ways_from_nothing(
    alloc: Global,
    letters: &mut Letters,
    level: u32,
    k: u32,
) -> Result<Vec<Grown>, Memory>
    requires level { 1 ≤ level }
    requires most { k ≤ 48 }
    ensures kept { IsExtended letters.old letters.new }
    ensures ways { IfOk result (λ ws. AreWays letters.new ws.items
        (grown (exponents_of letters.old.pres) level k [] k)) }
{
    if k < level {
        return Ok(Vec::new(alloc));
    }
    let mut known = Vec::new(alloc);
    for p in level..k {
        let ways = grow_from_nothing(alloc, letters, level, &known, p)?;
        known.push(ways)?;
    }
    grow_from_nothing(alloc, letters, level, &known, k)
}
