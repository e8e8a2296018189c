//! Products by a table whose terms share parts, some of which are 0.

ghost use Rattle.std.specs.Prelude.{◌≡◌, length, IfOk};
ghost use Rattle.hall_table.specs.Tabled.{last_of};
ghost use Rattle.hall_table.specs.Width.{HasRows};

use crate::tests::{plus, sum, times, vector, x, y};
use crate::*;
use binom_poly::{Accumulator, Poly, Rows};
use nil_word::Vector;
use std::alloc::Global;
use std::test::Fail;

const MAX: i128 = i128::MAX;

/// `x1*y1 + 2*x1*C(y1,2)`.
fn products(alloc: Global) -> Result<Poly, Fail> {
    let square = times(alloc, y(alloc, 1)?, y(alloc, 1)?)?;
    times(alloc, x(alloc, 1)?, square)
}

/// The sum of the monomials of a polynomial, each with the coefficient MAX.
fn with_greatest(alloc: Global, p: &Poly) -> Result<Poly, Fail> {
    let mut sum = Accumulator::new(alloc);
    for term in p.terms() {
        let monomial = term.monomial.copy(alloc)?;
        sum = sum.add(alloc, &monomial, MAX)?;
    }
    let poly = sum.into_poly(alloc)?;
    Ok(poly)
}

/// `x2 + y2 + MAX*x1*y1 + MAX*x1*C(y1,2)`.
fn second(alloc: Global) -> Result<Poly, Fail> {
    let products = products(alloc)?;
    plus(alloc, sum(alloc, 2)?, with_greatest(alloc, &products)?)
}

/// The table of `x1 + y1` and `second`.
fn table(alloc: Global) -> Result<Table, Fail>
    ensures level { IfOk result (λ t. t.level ≡ 1) }
    ensures last { IfOk result (λ t. length t.polys ≡ 2) }
{
    let mut polys = Vec::new(alloc);
    polys.push(sum(alloc, 1)?)?;
    polys.push(second(alloc)?)?;
    let table = Table::of(alloc, 1, polys)?;
    Ok(table)
}

/// The second entry of a product, which is written over `out`.
fn written(table: &Table, rows: &mut Rows, a: &Vector, b: &Vector, out: &mut Vector) -> Option<i128>
    requires last { last_of table.now ≡ 2 }
    requires left { length a.now ≡ 2 }
    requires right { length b.now ≡ 2 }
    requires out { length out.old ≡ 2 }
    requires rows { HasRows table.now rows.old }
{
    match table.multiply_into(rows, a, b, out) {
        Ok(()) => Some(out.at(2)),
        Err(_) => None,
    }
}

/// The same for the product of the vectors of these entries.
fn product(
    alloc: Global,
    table: &Table,
    rows: &mut Rows,
    a: &[i128],
    b: &[i128],
) -> Result<Option<i128>, Fail>
    requires last { last_of table.now ≡ 2 }
    requires left { length a.now ≡ 2 }
    requires right { length b.now ≡ 2 }
    requires rows { HasRows table.now rows.old }
{
    let a = vector(alloc, a)?;
    let b = vector(alloc, b)?;
    let mut out = Vector::zero(alloc, 2)?;
    Ok(written(table, rows, &a, &b, &mut out))
}

/// The second entry of the product of `x1 x2` and `y1 y2`.
fn entry(alloc: Global, x1: i128, x2: i128, y1: i128, y2: i128) -> Result<Option<i128>, Fail> {
    let table = table(alloc)?;
    let mut rows = table.rows(alloc)?;
    product(alloc, &table, &mut rows, &[x1, x2], &[y1, y2])
}

#[test]
fn terms_with_a_zero_factor_have_no_magnitude(rt: HostRuntime) -> Result<(), Fail> {
    let alloc = rt.alloc();
    assert_eq!(rt; entry(alloc, 0, 0, 2, 0)?, Some(0));
    assert_eq!(rt; entry(alloc, 0, 5, -1, 7)?, Some(12));
    assert_eq!(rt; entry(alloc, 2, 3, 0, 4)?, Some(7));
    // C(1,2) is 0.
    assert_eq!(rt; entry(alloc, 1, 0, 1, 0)?, Some(MAX));
    assert_eq!(rt; entry(alloc, -1, 0, 1, 0)?, Some(-MAX));
    Ok(())
}

#[test]
fn magnitudes_of_terms_that_share_a_factor_are_summed(rt: HostRuntime) -> Result<(), Fail> {
    let alloc = rt.alloc();
    assert_eq!(rt; entry(alloc, 1, 0, 2, 0)?, None);
    // -MAX and MAX
    assert_eq!(rt; entry(alloc, 1, 0, -1, 0)?, None);
    assert_eq!(rt; entry(alloc, 1, -1, 1, 0)?, None);
    Ok(())
}
