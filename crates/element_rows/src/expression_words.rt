//! Words of expressions.

use nil_word::{Expr, Letter, UnrollFault, unroll};
use sqlite_items::Boxed;
use std::alloc::Global;
use std::test::Fail;

const MAX: i128 = 0x7fff_ffff_ffff_ffff_ffff_ffff_ffff_ffff;

fn power(alloc: Global, base: Expr, exponent: i128) -> Result<Expr, Fail> {
    Ok(Expr::Pow(Boxed::new(alloc, base)?, exponent))
}

#[test]
fn a_negative_power_repeats_the_inverse(rt: HostRuntime) -> Result<(), Fail> {
    let word = unroll(rt.alloc(), &power(rt.alloc(), Expr::Gen(1), -2)?, 64)?;
    let down = Letter {
        number: 1,
        up: false,
    };
    assert_eq!(rt; word.letters(), [down, down].as_slice());
    Ok(())
}

#[test]
fn a_word_above_the_limit_is_too_long(rt: HostRuntime) -> Result<(), Fail> {
    for exponent in [65, MAX] {
        let expr = power(rt.alloc(), Expr::Gen(1), exponent)?;
        assert!(rt; matches!(&unroll(rt.alloc(), &expr, 64), Err(UnrollFault::TooLong)));
    }
    Ok(())
}

#[test]
fn a_power_of_one_is_empty_at_once(rt: HostRuntime) -> Result<(), Fail> {
    let word = unroll(rt.alloc(), &power(rt.alloc(), Expr::One, MAX)?, 0)?;
    assert!(rt; word.letters().is_empty());
    Ok(())
}
