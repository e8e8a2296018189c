//! The free group of two generators and class three.

ghost use Rattle.std.specs.Prelude.{◌≡◌, length, IfOk};

use crate::fixtures::{arena, five_names, poly_lines, poly_text, relate, tree_lines};
use dt_letters::{Letters, NodeFault, Side};
use nil_pres::Syllable;
use std::alloc::Global;
use std::test::Fail;
use tree_text::trees_text;

/// `[a2,a1] = a3`, `[a3,a1] = a4` and `[a3,a2] = a5`.
fn free(alloc: Global) -> Result<Letters, Fail>
    ensures { IfOk result (λ a. length a.pres.names ≡ 5) }
{
    let mut builder = five_names(alloc)?;
    relate(&mut builder, 2, 1, Syllable { number: 3, exp: 1 })?;
    relate(&mut builder, 3, 1, Syllable { number: 4, exp: 1 })?;
    relate(&mut builder, 3, 2, Syllable { number: 5, exp: 1 })?;
    arena(alloc, builder)
}

const TREES: &str = "x5.1
y5.1
(x3.1,y2.1;5.1)
((x2.1,y1.1;3.1),x2.2;5.1)
((x2.1,y1.1;3.1),y2.1;5.1)
";

#[test]
fn the_trees_of_the_last_type(rt: HostRuntime) -> Result<(), Fail> {
    let mut letters = free(rt.alloc())?;
    assert_eq!(rt; tree_lines(rt.alloc(), &mut letters)?.as_str(), TREES);
    Ok(())
}

#[test]
fn the_polynomial_of_the_last_type(rt: HostRuntime) -> Result<(), Fail> {
    let mut letters = free(rt.alloc())?;
    let poly = poly_text(rt.alloc(), &mut letters)?;
    assert_eq!(rt; poly.as_str(), "x5 + y5 + x3*y2 + C(x2,2)*y1 + x2*y1*y2");
    Ok(())
}

const POLYS: &str = "x1 + y1
x2 + y2
x3 + y3 + x2*y1
x4 + y4 + x3*y1 + x2*C(y1,2)
x5 + y5 + x3*y2 + C(x2,2)*y1 + x2*y1*y2
";

#[test]
fn the_polynomials_of_all_types(rt: HostRuntime) -> Result<(), Fail> {
    let mut letters = free(rt.alloc())?;
    assert_eq!(rt; poly_lines(rt.alloc(), &mut letters)?.as_str(), POLYS);
    Ok(())
}

const LINES: &str = "x5.1
y5.1
(x3.1,y2.1;5.1)
((x2.1,y1.1;3.1),x2.2;5.1)
((x2.1,y1.1;3.1),y2.1;5.1)
f5 = x5 + y5 + x3*y2 + C(x2,2)*y1 + x2*y1*y2
";

#[test]
fn the_lines_of_the_last_type(rt: HostRuntime) -> Result<(), Fail> {
    let letters = free(rt.alloc())?;
    let text = trees_text(rt.alloc(), letters.pres(), 5)?;
    assert_eq!(rt; text.as_str(), LINES);
    Ok(())
}

#[test]
fn the_lines_of_the_first_type(rt: HostRuntime) -> Result<(), Fail> {
    let letters = free(rt.alloc())?;
    let text = trees_text(rt.alloc(), letters.pres(), 1)?;
    assert_eq!(rt; text.as_str(), "x1.1\ny1.1\nf1 = x1 + y1\n");
    Ok(())
}

#[test]
fn a_letter_joins_only_a_later_one(rt: HostRuntime) -> Result<(), Fail> {
    let mut letters = free(rt.alloc())?;
    let third = letters.leaf(Side::X, 3, 1)?;
    let second = letters.leaf(Side::X, 2, 1)?;
    assert!(rt; matches!(letters.node(third, second, 5, 1), Err(NodeFault::NotLetter)));
    Ok(())
}
