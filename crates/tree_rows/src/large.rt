//! Exponents whose products are too large.

ghost use Rattle.std.specs.Prelude.{◌≡◌, length, IfOk};

use crate::fixtures::{arena, five_names, poly_lines, poly_text, relate};
use dt_letters::Letters;
use nil_pres::Syllable;
use std::alloc::Global;
use std::test::Fail;
use tree_text::{TreesFault, trees_text};

/// Each of `[a2,a1]`, `[a3,a1]` and `[a4,a1]` is the greatest power of the next generator.
fn large(alloc: Global) -> Result<Letters, Fail>
    ensures { IfOk result (λ a. length a.pres.names ≡ 5) }
{
    let mut builder = five_names(alloc)?;
    let exp = i64::MAX;
    relate(&mut builder, 2, 1, Syllable { number: 3, exp })?;
    relate(&mut builder, 3, 1, Syllable { number: 4, exp })?;
    relate(&mut builder, 4, 1, Syllable { number: 5, exp })?;
    arena(alloc, builder)
}

#[test]
fn a_constant_is_too_large(rt: HostRuntime) -> Result<(), Fail> {
    let mut letters = large(rt.alloc())?;
    assert_eq!(rt; poly_text(rt.alloc(), &mut letters)?.as_str(), "wide");
    Ok(())
}

#[test]
fn a_polynomial_is_too_large(rt: HostRuntime) -> Result<(), Fail> {
    let mut letters = large(rt.alloc())?;
    assert_eq!(rt; poly_lines(rt.alloc(), &mut letters)?.as_str(), "wide");
    Ok(())
}

#[test]
fn there_are_no_lines(rt: HostRuntime) -> Result<(), Fail> {
    let letters = large(rt.alloc())?;
    let answer = trees_text(rt.alloc(), letters.pres(), 5);
    assert!(rt; matches!(answer, Err(TreesFault::Wide)));
    Ok(())
}
