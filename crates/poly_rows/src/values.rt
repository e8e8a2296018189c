//! Values at the rows of binomial coefficients.

use binom_poly::{Rows, Top, mul, value, var};
use std::test::Fail;

#[test]
fn a_value_of_two_variables(rt: HostRuntime) -> Result<(), Fail> {
    let alloc = rt.alloc();
    let tops = [Top { var: 2, top: 1 }, Top { var: 65, top: 1 }];
    let mut rows = Rows::reserve(alloc, tops.as_slice())?;
    assert!(rt; rows.put(2, 3).is_ok());
    assert!(rt; rows.put(65, 5).is_ok());
    assert_eq!(rt; rows.at(2, 1), 3);
    assert_eq!(rt; rows.at(65, 1), 5);
    let product = mul(alloc, &var(alloc, 2)?, &var(alloc, 65)?)?;
    assert_eq!(rt; value(&product, &rows), Ok(15));
    Ok(())
}
