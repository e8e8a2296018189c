//! The groups of the letters in a tree, each handed over as one of its members.

ghost use Rattle.std.specs.Prelude.{◌≡◌, All, OnOk};
ghost use Rattle.std.specs.List.{list_any};
ghost use Rattle.dt_letters.specs.Letters.{group_of};
ghost use Rattle.dt_letters.specs.Meeting.{same_group};
ghost use Rattle.dt_letters.specs.Terms.{with_group, groups_from};
ghost use Rattle.dt_letters.specs.Arena.{IsTreeOf, letter_in};
ghost use Rattle.dt_trees.specs.Polynomials.{groups_over};

use dt_letters::{Form, Letters, Tree};
use nil_pres::Memory;

/// Whether the group of a letter is among those of members.
fn has_group(letters: &Letters, a: Tree, members: &[Tree]) -> bool
    requires letter { IsTreeOf letters.now a }
    requires members { All (IsTreeOf letters.now) members.now }
    ensures { result ≡ list_any (same_group (group_of (letter_in letters.now a)))
        (groups_over letters.now members.now) }
{
    let mut found = false;
    for member in members {
        found = letters.is_same_group(a, *member) || found;
    }
    found
}

/// Appends the letter unless its group is there already.
fn put_group(letters: &Letters, a: Tree, members: &mut Vec<Tree>) -> Result<(), Memory>
    requires letter { IsTreeOf letters.now a }
    requires members { All (IsTreeOf letters.now) members.old.items }
    ensures members { All (IsTreeOf letters.now) members.new.items }
    ensures groups { OnOk result (groups_over letters.now members.new.items
        ≡ with_group (group_of (letter_in letters.now a))
        (groups_over letters.now members.old.items)) }
{
    if has_group(letters, a, members) {
        return Ok(());
    }
    members.push(a)?;
    Ok(())
}

/// Appends members of the groups of the letters in a tree that aren't there yet.
pub(crate) fn put_groups(letters: &Letters, a: Tree, members: &mut Vec<Tree>) -> Result<(), Memory>
    requires letter { IsTreeOf letters.now a }
    requires members { All (IsTreeOf letters.now) members.old.items }
    ensures members { All (IsTreeOf letters.now) members.new.items }
    ensures groups { OnOk result (groups_over letters.now members.new.items
        ≡ groups_from (letter_in letters.now a) (groups_over letters.now members.old.items)) }
{
    match letters.form(a) {
        Form::Leaf { .. } => put_group(letters, a, members),
        Form::Node { left, right, .. } => {
            put_groups(letters, right, members)?;
            put_groups(letters, left, members)?;
            put_group(letters, a, members)
        }
    }
}
