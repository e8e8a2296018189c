//! Monomials and their order.

use binom_poly::{Monomial, Part};
use std::test::Fail;

#[test]
fn the_smaller_degree_comes_first(rt: HostRuntime) -> Result<(), Fail> {
    let alloc = rt.alloc();
    let single = Monomial::of(vec![in alloc; Part { var: 2, exp: 1 }]?);
    let double = Monomial::of(vec![in alloc; Part { var: 1, exp: 2 }]?);
    assert!(rt; single.before(&double));
    assert!(rt; !double.before(&single));
    assert_eq!(rt; double.degree(), 2);
    assert_eq!(rt; double.parts(), [Part { var: 1, exp: 2 }].as_slice());
    assert_eq!(rt; double.copy(alloc)?.into_parts().as_slice(), double.parts());
    Ok(())
}
