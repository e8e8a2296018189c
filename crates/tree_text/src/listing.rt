//! The text that lists trees.

ghost use Rattle.std.specs.Prelude.{◌≡◌, ◌≤◌, ◌++◌, All, length, map, string_bytes, IfOk, IsErrOf, OnOk};
ghost use Rattle.session_io.specs.Lines.{as_line, as_lines};
ghost use Rattle.dt_letters.specs.Text.{text_of};
ghost use Rattle.dt_letters.specs.Arena.{IsTreeOf, letter_in};
ghost use Rattle.tree_text.specs.Lines.{tree_lines, poly_line, PolyOverflows, IsTreesText};

use crate::trees_fault::TreesFault;
use binom_poly::{Memory, Poly};
use dt_letters::{Letters, Tree};
use dt_trees::{least_trees, tree_poly};
use nil_pres::Presentation;
use std::alloc::Global;

/// The least trees of type k whose leaves have types from 1 on, one a line in the order of lists,
/// and then their polynomial.
pub fn trees_text(alloc: Global, pres: &Presentation, k: u32) -> Result<String, TreesFault>
    requires least { 1 ≤ k }
    requires most { k ≤ length pres.now.names }
    ensures text { IfOk result (λ text. IsTreesText pres.now k (string_bytes text)) }
    ensures wide { IsErrOf result TreesFault.Wide → PolyOverflows pres.now k }
{
    let _generators = pres.count();
    let mut letters = Letters::new(alloc, pres)?;
    let trees = least_trees(alloc, &mut letters, 1, k)?;
    let poly = tree_poly(alloc, &letters, &trees)?;
    let mut text = String::new(alloc);
    put_trees(&mut text, alloc, &letters, &trees)?;
    put_poly(&mut text, alloc, k, &poly)?;
    Ok(text)
}

/// Appends the line of each tree.
fn put_trees(
    text: &mut String,
    alloc: Global,
    letters: &Letters,
    trees: &[Tree],
) -> Result<(), Memory>
    requires { All (IsTreeOf letters.now) trees.now }
    ensures { OnOk result (string_bytes text.new ≡ string_bytes text.old
        ++ as_lines (tree_lines (map (letter_in letters.now) trees.now))) }
{
    'trees: for tree in trees {
        put_tree(text, alloc, letters, *tree)?;
    }
    Ok(())
}

/// Appends the line of a tree.
fn put_tree(text: &mut String, alloc: Global, letters: &Letters, tree: Tree) -> Result<(), Memory>
    requires { IsTreeOf letters.now tree }
    ensures { OnOk result (string_bytes text.new
        ≡ string_bytes text.old ++ as_line (text_of (letter_in letters.now tree))) }
{
    let own = letters.text(alloc, tree)?;
    writeln!(text, "{own}")
}

/// Appends the line of the polynomial of type k.
fn put_poly(text: &mut String, alloc: Global, k: u32, poly: &Poly) -> Result<(), Memory>
    ensures { OnOk result (string_bytes text.new
        ≡ string_bytes text.old ++ as_line (poly_line k poly.now)) }
{
    let own = binom_poly::text(alloc, poly)?;
    writeln!(text, "f{k} = {own}")
}
