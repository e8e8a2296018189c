//! The ways to put a member of a group into a stack.

ghost use Rattle.std.specs.Prelude.{◌≡◌, ◌^◌, ◌<◌, [], ◌∷◌, map, All, IfOk, OnOk};
ghost use Rattle.dt_letters.specs.Letters.{group_of, number_of};
ghost use Rattle.dt_letters.specs.Least.{greatest};
ghost use Rattle.dt_letters.specs.Growth.{AreBelow, raised};
ghost use Rattle.dt_letters.specs.Listing.{again, anew, has_room, places, upto};
ghost use Rattle.dt_letters.specs.Arena.{IsExtended, IsTreeOf, letter_in};
ghost use Rattle.dt_trees.specs.Ways.{stack_in, IsStackFor, Gains};

use crate::grown::Grown;
use dt_letters::{Letters, Tree};
use nil_pres::Memory;
use std::alloc::Global;

/// The greatest number of the group of a member in a stack, and 0 where it has none.
fn greatest(letters: &Letters, member: Tree, stack: &[Tree]) -> u64
    requires member { IsTreeOf letters.now member }
    requires trees { All (IsTreeOf letters.now) stack.now }
    ensures { result ≡ greatest (group_of (letter_in letters.now member))
        (stack_in letters.now stack.now) }
{
    let mut most = 0;
    for tree in stack {
        most = letters.greatest(*tree, member).max(most);
    }
    most
}

/// Whether a number above the greatest one may come in.
fn has_room(limit: i64, most: u64) -> bool
    ensures { result ≡ has_room limit most }
{
    limit <= 0 || most < limit as u64
}

/// The stack with the numbers of the group of a member one higher, from that of the member on.
fn raise_all(
    alloc: Global,
    letters: &mut Letters,
    member: Tree,
    stack: &[Tree],
) -> Result<Vec<Tree>, Memory>
    requires member { IsTreeOf letters.old member }
    requires trees { All (IsTreeOf letters.old) stack.now }
    requires small { AreBelow (2 ^ 63) (stack_in letters.old stack.now) }
    ensures kept { IsExtended letters.old letters.new }
    ensures list { IfOk result (λ v. IsStackFor letters.new v.items
        (map (raised (group_of (letter_in letters.old member))
        (number_of (letter_in letters.old member))) (stack_in letters.old stack.now))) }
{
    let mut list = Vec::with_capacity(alloc, stack.len())?;
    for tree in stack {
        list.push(letters.raise(*tree, member)?)?;
    }
    Ok(list)
}

/// Appends the way in which the number is there already.
fn put_again(
    alloc: Global,
    letters: &mut Letters,
    member: Tree,
    number: u64,
    stack: &[Tree],
    ways: &mut Vec<Grown>,
) -> Result<(), Memory>
    requires member { IsTreeOf letters.old member }
    requires trees { All (IsTreeOf letters.old) stack.now }
    ensures kept { IsExtended letters.old letters.new }
    ensures gains { OnOk result (Gains letters.old ways.old.items letters.new ways.new.items
        (again (group_of (letter_in letters.old member)) (stack_in letters.old stack.now) number
        ∷ [])) }
{
    let tree = letters.member(member, number)?;
    let list = Vec::from_slice(alloc, stack)?;
    ways.push(Grown { list, tree })?;
    Ok(())
}

/// Appends the way in which the number is put in.
fn put_anew(
    alloc: Global,
    letters: &mut Letters,
    member: Tree,
    number: u64,
    stack: &[Tree],
    ways: &mut Vec<Grown>,
) -> Result<(), Memory>
    requires member { IsTreeOf letters.old member }
    requires trees { All (IsTreeOf letters.old) stack.now }
    requires small { AreBelow (2 ^ 63) (stack_in letters.old stack.now) }
    ensures kept { IsExtended letters.old letters.new }
    ensures gains { OnOk result (Gains letters.old ways.old.items letters.new ways.new.items
        (anew (group_of (letter_in letters.old member)) (stack_in letters.old stack.now) number
        ∷ [])) }
{
    let tree = letters.member(member, number)?;
    let list = raise_all(alloc, letters, tree, stack)?;
    ways.push(Grown { list, tree })?;
    Ok(())
}

/// Appends the ways in which one of the first numbers is there already.
fn put_all_again(
    alloc: Global,
    letters: &mut Letters,
    member: Tree,
    most: u64,
    stack: &[Tree],
    ways: &mut Vec<Grown>,
) -> Result<(), Memory>
    requires member { IsTreeOf letters.old member }
    requires trees { All (IsTreeOf letters.old) stack.now }
    ensures kept { IsExtended letters.old letters.new }
    ensures gains { OnOk result (Gains letters.old ways.old.items letters.new ways.new.items
        (map (again (group_of (letter_in letters.old member)) (stack_in letters.old stack.now))
        (upto most))) }
{
    for below in 0..most {
        put_again(alloc, letters, member, below + 1, stack, ways)?;
    }
    Ok(())
}

/// Appends the ways in which one of the first numbers is put in.
fn put_all_anew(
    alloc: Global,
    letters: &mut Letters,
    member: Tree,
    most: u64,
    stack: &[Tree],
    ways: &mut Vec<Grown>,
) -> Result<(), Memory>
    requires member { IsTreeOf letters.old member }
    requires trees { All (IsTreeOf letters.old) stack.now }
    requires small { AreBelow (2 ^ 63) (stack_in letters.old stack.now) }
    ensures kept { IsExtended letters.old letters.new }
    ensures gains { OnOk result (Gains letters.old ways.old.items letters.new ways.new.items
        (map (anew (group_of (letter_in letters.old member)) (stack_in letters.old stack.now))
        (upto most))) }
{
    for below in 0..most {
        put_anew(alloc, letters, member, below + 1, stack, ways)?;
    }
    Ok(())
}

/// Appends the ways to put a member of the group into the stack. The limit is for its numbers.
pub(crate) fn place(
    alloc: Global,
    letters: &mut Letters,
    member: Tree,
    limit: i64,
    stack: &[Tree],
    ways: &mut Vec<Grown>,
) -> Result<(), Memory>
    requires member { IsTreeOf letters.old member }
    requires trees { All (IsTreeOf letters.old) stack.now }
    requires small { AreBelow (2 ^ 63) (stack_in letters.old stack.now) }
    ensures kept { IsExtended letters.old letters.new }
    ensures gains { OnOk result (Gains letters.old ways.old.items letters.new ways.new.items
        (places (group_of (letter_in letters.old member)) limit
        (stack_in letters.old stack.now))) }
{
    let most = greatest(letters, member, stack);
    put_all_again(alloc, letters, member, most, stack, ways)?;
    if !has_room(limit, most) {
        return Ok(());
    }
    put_all_anew(alloc, letters, member, most, stack, ways)?;
    // Above the greatest number nothing has to be raised.
    put_again(alloc, letters, member, most + 1, stack, ways)
}
