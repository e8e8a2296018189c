//! The ways in which a stack of trees grows by a tree of a type.

ghost use Rattle.std.specs.Prelude.{◌≡◌, ◌≢◌, ◌^◌, ◌-◌, ◌<◌, ◌≤◌, [], ◌∷◌, ◌++◌, pos, map, nat_le, All, IfOk, OnOk, if◌then◌else◌};
ghost use Rattle.dt_letters.specs.Letters.{leaves};
ghost use Rattle.dt_letters.specs.Allowed.{exponents_of};
ghost use Rattle.dt_letters.specs.Growth.{AreBelow, most_steps};
ghost use Rattle.dt_letters.specs.Listing.{each, grown, joined, places};
ghost use Rattle.dt_letters.specs.Arena.{IsExtended, IsTreeOf};
ghost use Rattle.dt_letters.specs.declared.side.Side.TheVariants as side;
ghost use Rattle.dt_trees.specs.Ways.{stack_in, grown_in, IsWay, AreWays, Gains, FitsFor, IsSmall, leaf_ways, rights_of, pair_ways};

use crate::grown::Grown;
use crate::placing::place;
use dt_letters::{Form, Letters, Side, Tree};
use nil_pres::Memory;
use std::alloc::Global;

/// Appends the ways to put a leaf into the stack.
fn place_leaf(
    alloc: Global,
    letters: &mut Letters,
    side: Side,
    k: u32,
    stack: &[Tree],
    ways: &mut Vec<Grown>,
) -> Result<(), Memory>
    requires trees { All (IsTreeOf letters.old) stack.now }
    requires small { AreBelow (2 ^ 63) (stack_in letters.old stack.now) }
    ensures kept { IsExtended letters.old letters.new }
    ensures gains { OnOk result (Gains letters.old ways.old.items letters.new ways.new.items
        (places (leaves side k) (pos 0) (stack_in letters.old stack.now))) }
{
    let member = letters.leaf(side, k, 1)?;
    place(alloc, letters, member, 0, stack, ways)
}

/// Appends the ways to grow by a leaf of a type from the level on.
pub(crate) fn place_leaves(
    alloc: Global,
    letters: &mut Letters,
    level: u32,
    k: u32,
    stack: &[Tree],
    ways: &mut Vec<Grown>,
) -> Result<(), Memory>
    requires least { level ≤ k }
    requires trees { All (IsTreeOf letters.old) stack.now }
    requires small { AreBelow (2 ^ 63) (stack_in letters.old stack.now) }
    ensures kept { IsExtended letters.old letters.new }
    ensures gains { OnOk result (Gains letters.old ways.old.items letters.new ways.new.items
        (leaf_ways level (stack_in letters.old stack.now) k)) }
{
    place_leaf(alloc, letters, Side::X, k, stack, ways)?;
    place_leaf(alloc, letters, Side::Y, k, stack, ways)
}

/// Appends the ways to join the left letter, the last of the list, and the tree.
fn join(
    alloc: Global,
    letters: &mut Letters,
    right: Grown,
    k: u32,
    limit: i64,
    ways: &mut Vec<Grown>,
) -> Result<(), Memory>
    requires way { IsWay letters.old right }
    requires small { AreBelow (2 ^ 63) (stack_in letters.old right.list.items) }
    ensures kept { IsExtended letters.old letters.new }
    ensures gains { OnOk result (Gains letters.old ways.old.items letters.new ways.new.items
        (joined (exponents_of letters.old.pres) k limit (grown_in letters.old right).tree
        (grown_in letters.old right).list)) }
{
    let Grown { mut list, tree } = right;
    let Some(left) = list.pop() else {
        return Ok(());
    };
    if !letters.may_join(left, tree) {
        return Ok(());
    }
    let member = letters.put(Form::Node {
        left,
        right: tree,
        kind: k,
        number: 1,
    })?;
    place(alloc, letters, member, limit, &list, ways)
}

/// Appends the ways to join, for each way in which a stack grew by a right letter.
fn join_all(
    alloc: Global,
    letters: &mut Letters,
    rights: Vec<Grown>,
    k: u32,
    limit: i64,
    ways: &mut Vec<Grown>,
) -> Result<(), Memory>
    requires ways { All (IsWay letters.old) rights.items }
    requires small { All IsSmall (map (grown_in letters.old) rights.items) }
    ensures kept { IsExtended letters.old letters.new }
    ensures gains { OnOk result (Gains letters.old ways.old.items letters.new ways.new.items
        (each (λ w. joined (exponents_of letters.old.pres) k limit w.tree w.list)
        (map (grown_in letters.old) rights.items))) }
{
    for right in rights {
        join(alloc, letters, right, k, limit, ways)?;
    }
    Ok(())
}

/// The stack with the tree by which it grew as its last.
fn with_tree(alloc: Global, way: &Grown) -> Result<Vec<Tree>, Memory>
    ensures { IfOk result (λ list. list.items ≡ way.now.list.items ++ way.now.tree ∷ []) }
{
    let mut list = Vec::with_capacity(alloc, way.list.len() + 1)?;
    list.extend_from_slice(&way.list)?;
    list.push(way.tree)?;
    Ok(list)
}

/// Appends the ways to grow by a right letter and to join, for each way in which a stack grew by a
/// left letter.
#[cycle(grow)]
pub(crate) fn grow_rights(
    alloc: Global,
    letters: &mut Letters,
    level: u32,
    lefts: &[Grown],
    q: u32,
    k: u32,
    limit: i64,
    ways: &mut Vec<Grown>,
) -> Result<(), Memory>
    requires level { 1 ≤ level }
    requires least { 1 ≤ q }
    requires below { q < k }
    requires most { k ≤ 48 }
    requires ways { All (IsWay letters.old) lefts.now }
    requires small { All (FitsFor q) (map (grown_in letters.old) lefts.now) }
    ensures kept { IsExtended letters.old letters.new }
    ensures gains { OnOk result (Gains letters.old ways.old.items letters.new ways.new.items
        (each (rights_of (exponents_of letters.old.pres) level q k limit)
        (map (grown_in letters.old) lefts.now))) }
{
    for left in lefts {
        let list = with_tree(alloc, left)?;
        let rights = grow(alloc, letters, level, &list, q)?;
        join_all(alloc, letters, rights, k, limit, ways)?;
    }
    Ok(())
}

/// Appends the ways to grow by a node on letters of two types.
#[cycle(grow)]
fn grow_pair(
    alloc: Global,
    letters: &mut Letters,
    level: u32,
    stack: &[Tree],
    p: u32,
    q: u32,
    k: u32,
    ways: &mut Vec<Grown>,
) -> Result<(), Memory>
    requires level { 1 ≤ level }
    requires least { 1 ≤ q }
    requires falls { q < p }
    requires below { p < k }
    requires most { k ≤ 48 }
    requires trees { All (IsTreeOf letters.old) stack.now }
    requires small { AreBelow (2 ^ 63 - most_steps k) (stack_in letters.old stack.now) }
    ensures kept { IsExtended letters.old letters.new }
    ensures gains { OnOk result (Gains letters.old ways.old.items letters.new ways.new.items
        (pair_ways (exponents_of letters.old.pres) level (stack_in letters.old stack.now) k p q)) }
{
    // Nothing grows by such a right letter.
    if q < level {
        return Ok(());
    }
    let limit = letters.exponent(q, p, k);
    if limit == 0 {
        return Ok(());
    }
    let lefts = grow(alloc, letters, level, stack, p)?;
    grow_rights(alloc, letters, level, &lefts, q, k, limit, ways)
}

/// The ways in which the stack grows by a tree of the type.
#[cycle(grow)]
fn grow(
    alloc: Global,
    letters: &mut Letters,
    level: u32,
    stack: &[Tree],
    k: u32,
) -> Result<Vec<Grown>, Memory>
    requires level { 1 ≤ level }
    requires least { 1 ≤ k }
    requires most { k ≤ 48 }
    requires trees { All (IsTreeOf letters.old) stack.now }
    requires small { AreBelow (2 ^ 63 - most_steps k) (stack_in letters.old stack.now) }
    ensures kept { IsExtended letters.old letters.new }
    ensures ways { IfOk result (λ ws. AreWays letters.new ws.items
        (grown (exponents_of letters.old.pres) level k (stack_in letters.old stack.now) k)) }
{
    let mut ways = Vec::new(alloc);
    // Nothing grows by such a type, and to try its pairs would take exponential time.
    if k < level {
        return Ok(ways);
    }
    place_leaves(alloc, letters, level, k, stack, &mut ways)?;
    for place in 0..letters.pairs(k).len() {
        let pair = letters.pairs(k)[place];
        grow_pair(
            alloc, letters, level, stack, pair.left, pair.right, k, &mut ways,
        )?;
    }
    Ok(ways)
}
