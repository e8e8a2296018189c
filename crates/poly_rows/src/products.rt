//! Products.

use binom_poly::{Monomial, Part, Poly, Term, mul, text, var};
use std::alloc::{AllocError, Global};
use std::test::Fail;

/// C(x1,2).
fn pairs(alloc: Global) -> Result<Poly, AllocError> {
    let parts = vec![in alloc; Part { var: 1, exp: 2 }]?;
    let term = Term {
        monomial: Monomial::of(parts),
        coefficient: 1,
    };
    Ok(Poly::of(vec![in alloc; term]?))
}

#[test]
fn a_binomial_times_its_variable(rt: HostRuntime) -> Result<(), Fail> {
    let alloc = rt.alloc();
    let product = mul(alloc, &pairs(alloc)?, &var(alloc, 1)?)?;
    assert_eq!(rt; text(alloc, &product)?.as_str(), "2*C(x1,2) + 3*C(x1,3)");
    Ok(())
}
