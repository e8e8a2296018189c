//! Exact quotients.

use binom_poly::{divide_exact, mul, same, scale, text, var};
use std::test::Fail;

#[test]
fn an_even_polynomial_is_halved(rt: HostRuntime) -> Result<(), Fail> {
    let alloc = rt.alloc();
    let x = var(alloc, 1)?;
    let square = mul(alloc, &x, &x)?;
    let even = scale(alloc, &square, 2)?;
    let half = divide_exact(alloc, &even, 2)?;
    assert!(rt; same(&half, &square));
    assert!(rt; text(alloc, &half)?.as_str() == "x1 + 2*C(x1,2)");
    Ok(())
}
