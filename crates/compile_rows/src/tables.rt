//! Tables that are proposed.

ghost use Rattle.std.specs.Prelude.{◌≤◌};

use binom_poly::{Poly, add, mul, scale, var, x_of, y_of};
use hall_table::Table;
use nil_num::MAX;
use nil_propose::{Listed, Offer};
use poly_subst::choose;
use std::alloc::Global;
use std::test::Fail;

/// `x_k + y_k`.
fn sum_of_both(alloc: Global, k: u32) -> Result<Poly, Fail>
    requires least { 1 ≤ k }
    requires most { k ≤ 48 }
{
    Ok(add(alloc, &var(alloc, x_of(k))?, &var(alloc, y_of(k))?)?)
}

/// The table x1 + y1, x2 + y2, x3 + y3 + c*x2*y1.
pub(crate) fn heisenberg(alloc: Global, up: bool) -> Result<Table, Fail> {
    let product = mul(alloc, &var(alloc, x_of(2))?, &var(alloc, y_of(1))?)?;
    let more = if up {
        product
    } else {
        scale(alloc, &product, -1)?
    };
    let mut polys = Vec::new(alloc);
    polys.push(sum_of_both(alloc, 1)?)?;
    polys.push(sum_of_both(alloc, 2)?)?;
    polys.push(add(alloc, &sum_of_both(alloc, 3)?, &more)?)?;
    Ok(Table::of(alloc, 1, polys)?)
}

/// The table x2 + y2, x3 + y3 + C(x2,1000)*y2.
pub(crate) fn steep(alloc: Global) -> Result<Table, Fail> {
    let power = choose(alloc, &var(alloc, x_of(2))?, 1000)?;
    let more = mul(alloc, &power, &var(alloc, y_of(2))?)?;
    let mut polys = Vec::new(alloc);
    polys.push(sum_of_both(alloc, 2)?)?;
    polys.push(add(alloc, &sum_of_both(alloc, 3)?, &more)?)?;
    Ok(Table::of(alloc, 2, polys)?)
}

/// `MAX*x1*C(y1,m)`.
fn large(alloc: Global, m: u32) -> Result<Poly, Fail>
    requires { m ≤ 1000 }
{
    let power = choose(alloc, &var(alloc, y_of(1))?, m)?;
    let product = mul(alloc, &var(alloc, x_of(1))?, &power)?;
    Ok(scale(alloc, &product, MAX)?)
}

/// The table x1 + y1, x2 + y2 + MAX*x1*C(y1,2) + MAX*x1*C(y1,3).
pub(crate) fn wide(alloc: Global) -> Result<Table, Fail> {
    let more = add(alloc, &large(alloc, 2)?, &large(alloc, 3)?)?;
    let mut polys = Vec::new(alloc);
    polys.push(sum_of_both(alloc, 1)?)?;
    polys.push(add(alloc, &sum_of_both(alloc, 2)?, &more)?)?;
    Ok(Table::of(alloc, 1, polys)?)
}

/// A proposer with one offer.
pub(crate) fn listed(alloc: Global, label: u32, level: u32, table: Table) -> Result<Listed, Fail> {
    let mut offers = Vec::new(alloc);
    offers.push(Offer { level, table })?;
    Ok(Listed::new(label, offers))
}
