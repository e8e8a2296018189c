//! What the tests share: presentations of five generators, and texts.

ghost use Rattle.std.specs.Prelude.{◌≡◌, ◌+◌, ◌≤◌, length, IfOk, OnOk};

use binom_poly::{Poly, PolyFault, text};
use dt_letters::Letters;
use dt_trees::{least_trees, tree_poly, tree_polys};
use nil_pres::{Builder, Syllable};
use std::alloc::{AllocError, Global};
use std::test::Fail;

fn add_name(builder: &mut Builder, name: &str) -> Result<(), Fail>
    ensures { OnOk result (length builder.new.names ≡ length builder.old.names + 1) }
{
    builder.add_name(name)?;
    Ok(())
}

/// A builder of five generators.
pub(crate) fn five_names(alloc: Global) -> Result<Builder, Fail>
    ensures { IfOk result (λ b. length b.names ≡ 5) }
{
    let mut builder = Builder::new(alloc)?;
    add_name(&mut builder, "a1")?;
    add_name(&mut builder, "a2")?;
    add_name(&mut builder, "a3")?;
    add_name(&mut builder, "a4")?;
    add_name(&mut builder, "a5")?;
    Ok(builder)
}

/// Sets the right side of a pair to a power of a generator.
pub(crate) fn relate(builder: &mut Builder, j: u32, i: u32, right: Syllable) -> Result<(), Fail>
    requires names { length builder.old.names ≡ 5 }
    requires j_least { 1 ≤ j }
    requires j_most { j ≤ 5 }
    requires i_least { 1 ≤ i }
    requires i_most { i ≤ 5 }
    requires number { right.number ≤ 5 }
    ensures { OnOk result (length builder.new.names ≡ 5) }
{
    builder.add_relation(j, i, &[right])?;
    Ok(())
}

/// An arena over the presentation of a builder.
pub(crate) fn arena(alloc: Global, builder: Builder) -> Result<Letters, Fail>
    requires { length builder.names ≡ 5 }
    ensures { IfOk result (λ a. length a.pres.names ≡ 5) }
{
    let pres = builder.finish().ok_or("no names")?;
    Ok(Letters::new(alloc, &pres)?)
}

/// The texts of the least trees of the last type, a line each.
pub(crate) fn tree_lines(alloc: Global, letters: &mut Letters) -> Result<String, AllocError>
    requires { length letters.old.pres.names ≡ 5 }
{
    let trees = least_trees(alloc, letters, 1, 5)?;
    let mut lines = String::new(alloc);
    for tree in &trees {
        let text = letters.text(alloc, *tree)?;
        lines.push_str(text.as_str())?;
        lines.push_str("\n")?;
    }
    Ok(lines)
}

/// The text of the polynomial of the last type, or that it is too large.
pub(crate) fn poly_text(alloc: Global, letters: &mut Letters) -> Result<String, AllocError>
    requires { length letters.old.pres.names ≡ 5 }
{
    let trees = least_trees(alloc, letters, 1, 5)?;
    match tree_poly(alloc, letters, &trees) {
        Ok(poly) => text(alloc, &poly),
        Err(PolyFault::Wide) => String::from_str(alloc, "wide"),
        Err(PolyFault::Memory) => Err(AllocError),
    }
}

/// The texts of polynomials, a line each.
fn lines_of(alloc: Global, polys: &[Poly]) -> Result<String, AllocError> {
    let mut lines = String::new(alloc);
    for poly in polys {
        let text = text(alloc, poly)?;
        lines.push_str(text.as_str())?;
        lines.push_str("\n")?;
    }
    Ok(lines)
}

/// The texts of the polynomials of all types, or that one is too large.
pub(crate) fn poly_lines(alloc: Global, letters: &mut Letters) -> Result<String, AllocError>
    requires { length letters.old.pres.names ≡ 5 }
{
    match tree_polys(alloc, letters, 1)? {
        Some(polys) => lines_of(alloc, &polys),
        None => String::from_str(alloc, "wide"),
    }
}
