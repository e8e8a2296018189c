//! Worked rows, and calls with ample memory.

ghost use Rattle.std.specs.Prelude.{◌≡◌, ◌+◌, ◌≤◌, length, IfOk, OnOk};
ghost use Rattle.nil_num.specs.Bound.{IsNumber};
ghost use Rattle.hall_table.specs.Tabled.{last_of};
ghost use Rattle.hall_table.specs.Width.{HasRows};

use crate::*;
use binom_poly::{Poly, Rows, add, mul, same, scale, var, y_of};
use nil_word::Vector;
use std::alloc::Global;
use std::test::Fail;

/// `p + q`.
pub fn plus(alloc: Global, p: Poly, q: Poly) -> Result<Poly, Fail> {
    let sum = add(alloc, &p, &q)?;
    Ok(sum)
}

/// `p*q`.
pub fn times(alloc: Global, p: Poly, q: Poly) -> Result<Poly, Fail> {
    let product = mul(alloc, &p, &q)?;
    Ok(product)
}

/// `x_k`.
pub fn x(alloc: Global, k: u32) -> Result<Poly, Fail>
    requires least { 1 ≤ k }
    requires most { k ≤ 48 }
{
    let x = var(alloc, k)?;
    Ok(x)
}

/// `y_k`.
pub fn y(alloc: Global, k: u32) -> Result<Poly, Fail>
    requires least { 1 ≤ k }
    requires most { k ≤ 48 }
{
    let y = var(alloc, y_of(k))?;
    Ok(y)
}

/// `x_k + y_k`.
pub fn sum(alloc: Global, k: u32) -> Result<Poly, Fail>
    requires least { 1 ≤ k }
    requires most { k ≤ 48 }
{
    plus(alloc, x(alloc, k)?, y(alloc, k)?)
}

/// `x_k*y_j`.
fn product(alloc: Global, k: u32, j: u32) -> Result<Poly, Fail>
    requires least { 1 ≤ k }
    requires most { k ≤ 48 }
    requires other_least { 1 ≤ j }
    requires other_most { j ≤ 48 }
{
    times(alloc, x(alloc, k)?, y(alloc, j)?)
}

/// `2*x_k*y_j`.
fn twice_product(alloc: Global, k: u32, j: u32) -> Result<Poly, Fail>
    requires least { 1 ≤ k }
    requires most { k ≤ 48 }
    requires other_least { 1 ≤ j }
    requires other_most { j ≤ 48 }
{
    let product = product(alloc, k, j)?;
    let twice = scale(alloc, &product, 2)?;
    Ok(twice)
}

/// Twice the binomial coefficient of a polynomial over 2.
fn twice_over_two(alloc: Global, p: Poly) -> Result<Poly, Fail> {
    let opposite = scale(alloc, &p, -1)?;
    let square = mul(alloc, &p, &p)?;
    plus(alloc, square, opposite)
}

/// `x_k + y_k + x_i*y_j`.
fn sum_and_product(alloc: Global, k: u32, i: u32, j: u32) -> Result<Poly, Fail>
    requires least { 1 ≤ k }
    requires most { k ≤ 48 }
    requires left_least { 1 ≤ i }
    requires left_most { i ≤ 48 }
    requires right_least { 1 ≤ j }
    requires right_most { j ≤ 48 }
{
    plus(alloc, sum(alloc, k)?, product(alloc, i, j)?)
}

/// `x_k + y_k`, a second polynomial, and at `k + 2` the sum with `x_(k+1)*y_k`.
fn polys_from(alloc: Global, k: u32, second: Poly) -> Result<Vec<Poly>, Fail>
    requires least { 1 ≤ k }
    requires most { k ≤ 46 }
    ensures { IfOk result (λ polys. length polys.items ≡ 3) }
{
    let mut polys = Vec::new(alloc);
    polys.push(sum(alloc, k)?)?;
    polys.push(second)?;
    polys.push(sum_and_product(alloc, k + 2, k + 1, k)?)?;
    Ok(polys)
}

/// The table of the Heisenberg group.
fn heisenberg(alloc: Global) -> Result<Table, Fail>
    ensures level { IfOk result (λ t. t.level ≡ 1) }
    ensures last { IfOk result (λ t. length t.polys ≡ 3) }
{
    let polys = polys_from(alloc, 1, sum(alloc, 2)?)?;
    let table = Table::of(alloc, 1, polys)?;
    Ok(table)
}

#[test]
fn a_term_in_a_later_variable_breaks_the_shape(rt: HostRuntime) -> Result<(), Fail> {
    let alloc = rt.alloc();
    let bent = plus(alloc, sum(alloc, 2)?, x(alloc, 3)?)?;
    let polys = polys_from(alloc, 1, bent)?;
    assert!(rt; matches!(Table::of(alloc, 1, polys), Err(TableOfFault::Shape(2))));
    Ok(())
}

/// Whether a polynomial of a table is the given one.
fn has(alloc: Global, table: &Table, k: u32, p: Poly) -> Result<bool, Fail>
    requires least { table.now.level ≤ k }
    requires most { k ≤ last_of table.now }
{
    let poly = table.poly(alloc, k)?;
    Ok(same(&poly, &p))
}

/// Whether a polynomial of a table is `x_k + y_k`.
fn has_sum(alloc: Global, table: &Table, k: u32) -> Result<bool, Fail>
    requires positive { 1 ≤ k }
    requires small { k ≤ 48 }
    requires least { table.now.level ≤ k }
    requires most { k ≤ last_of table.now }
{
    has(alloc, table, k, sum(alloc, k)?)
}

/// Whether the third polynomial of a table is `x3 + y3 + x2*y1`.
fn has_product(alloc: Global, table: &Table) -> Result<bool, Fail>
    requires least { table.now.level ≤ 3 }
    requires most { 3 ≤ last_of table.now }
{
    has(alloc, table, 3, sum_and_product(alloc, 3, 2, 1)?)
}

/// Whether a copy has that polynomial too.
fn copy_has_product(alloc: Global, table: &Table) -> Result<bool, Fail>
    requires least { table.now.level ≤ 3 }
    requires most { 3 ≤ last_of table.now }
{
    let copied = table.copy(alloc)?;
    has_product(alloc, &copied)
}

/// Whether a polynomial of the tail of level 2 is `x_k + y_k`.
fn tail_has_sum(alloc: Global, table: &Table, k: u32) -> Result<bool, Fail>
    requires level { table.now.level ≤ 2 }
    requires least { 2 ≤ k }
    requires most { k ≤ last_of table.now }
    requires small { k ≤ 48 }
{
    let tail = table.tail(alloc, 2)?;
    has_sum(alloc, &tail, k)
}

/// Whether a table, its copy and its tail have the polynomials of the Heisenberg group.
fn has_all(alloc: Global, table: &Table) -> Result<bool, Fail>
    requires level { table.now.level ≤ 2 }
    requires last { 3 ≤ last_of table.now }
{
    let own = has_product(alloc, table)?;
    let copied = copy_has_product(alloc, table)?;
    let second = tail_has_sum(alloc, table, 2)?;
    let third = tail_has_sum(alloc, table, 3)?;
    Ok(own && copied && second && third)
}

#[test]
fn a_table_gives_its_polynomials_and_those_of_its_tail(rt: HostRuntime) -> Result<(), Fail> {
    let table = heisenberg(rt.alloc())?;
    assert!(rt; has_all(rt.alloc(), &table)?);
    Ok(())
}

/// The vector of these entries, which aren't `i128::MIN`.
pub fn vector(alloc: Global, entries: &[i128]) -> Result<Vector, Fail>
    requires { length entries.now ≤ 48 }
    ensures { IfOk result (λ v. length v ≡ length entries.now) }
{
    let mut vector = Vector::zero(alloc, entries.len() as u32)?;
    for (place, entry) in entries.iter().enumerate() {
        vector.set(place as u32 + 1, (*entry).max(-i128::MAX));
    }
    Ok(vector)
}

/// Whether a product is answered so, and leaves these entries.
fn answers(
    table: &Table,
    rows: &mut Rows,
    out: &mut Vector,
    a: &Vector,
    b: &Vector,
    answer: Result<(), WideAt>,
    entries: &[i128],
) -> bool
    requires left { length a.now ≡ last_of table.now }
    requires right { length b.now ≡ last_of table.now }
    requires out { length out.old ≡ last_of table.now }
    requires rows { HasRows table.now rows.old }
    ensures out { length out.new ≡ last_of table.now }
    ensures rows { HasRows table.now rows.new }
{
    table.multiply_into(rows, a, b, out) == answer && out.entries() == entries
}

/// The same for the product of the vectors of these entries.
fn leaves(
    alloc: Global,
    table: &Table,
    rows: &mut Rows,
    out: &mut Vector,
    a: &[i128],
    b: &[i128],
    answer: Result<(), WideAt>,
    entries: &[i128],
) -> Result<bool, Fail>
    requires small { last_of table.now ≤ 48 }
    requires left { length a.now ≡ last_of table.now }
    requires right { length b.now ≡ last_of table.now }
    requires out { length out.old ≡ last_of table.now }
    requires rows { HasRows table.now rows.old }
    ensures out { length out.new ≡ last_of table.now }
    ensures rows { HasRows table.now rows.new }
{
    let a = vector(alloc, a)?;
    let b = vector(alloc, b)?;
    Ok(answers(table, rows, out, &a, &b, answer, entries))
}

/// The products of the Heisenberg group, by its rows.
fn heisenberg_products(
    alloc: Global,
    table: &Table,
    rows: &mut Rows,
    out: &mut Vector,
) -> Result<bool, Fail>
    requires last { last_of table.now ≡ 3 }
    requires out { length out.old ≡ 3 }
    requires rows { HasRows table.now rows.old }
{
    let entries = [5, 7, 17];
    let product = leaves(
        alloc,
        table,
        rows,
        out,
        &[1, 2, 3],
        &[4, 5, 6],
        Ok(()),
        &entries,
    )?;
    // x2*y1 overflows alone, though x3 + y3 doesn't.
    let wide = [1 << 64, 1 << 64, 0];
    let refused = Err(WideAt::Sum(3));
    let stays = leaves(alloc, table, rows, out, &wide, &wide, refused, &entries)?;
    Ok(product && stays)
}

#[test]
fn a_product_is_written_or_its_first_wide_place_is_named(rt: HostRuntime) -> Result<(), Fail> {
    let alloc = rt.alloc();
    let table = heisenberg(alloc)?;
    let mut rows = table.rows(alloc)?;
    let mut out = Vector::zero(alloc, 3)?;
    assert!(rt; heisenberg_products(alloc, &table, &mut rows, &mut out)?);
    Ok(())
}

/// `2*x3*C(y2,2)`.
fn with_x3(alloc: Global) -> Result<Poly, Fail> {
    let binomials = twice_over_two(alloc, y(alloc, 2)?)?;
    times(alloc, x(alloc, 3)?, binomials)
}

/// `x5 + y5 + 2*x4*y2 + 2*x3*C(y2,2)`.
fn fifth(alloc: Global) -> Result<Poly, Fail> {
    let products = plus(alloc, twice_product(alloc, 4, 2)?, with_x3(alloc)?)?;
    plus(alloc, sum(alloc, 5)?, products)
}

/// `2*C(x3,2)*y2`.
fn with_y2(alloc: Global) -> Result<Poly, Fail> {
    let binomials = twice_over_two(alloc, x(alloc, 3)?)?;
    times(alloc, binomials, y(alloc, 2)?)
}

/// `2*x4*y3 + 2*x3*y2*y3`.
fn with_y3(alloc: Global) -> Result<Poly, Fail> {
    let with_both = times(alloc, twice_product(alloc, 3, 2)?, y(alloc, 3)?)?;
    plus(alloc, twice_product(alloc, 4, 3)?, with_both)
}

/// `x6 + y6 + 2*x4*y3 + 2*C(x3,2)*y2 + 2*x3*y2*y3`.
fn sixth(alloc: Global) -> Result<Poly, Fail> {
    let products = plus(alloc, with_y2(alloc)?, with_y3(alloc)?)?;
    plus(alloc, sum(alloc, 6)?, products)
}

/// The polynomials of the table of level 2 of [a3,a2] = a4, [a4,a2] = a5^2 and [a4,a3] = a6^2.
fn class_three_polys(alloc: Global) -> Result<Vec<Poly>, Fail>
    ensures { IfOk result (λ polys. length polys.items ≡ 5) }
{
    let mut polys = polys_from(alloc, 2, sum(alloc, 3)?)?;
    polys.push(fifth(alloc)?)?;
    polys.push(sixth(alloc)?)?;
    Ok(polys)
}

/// That table.
fn class_three(alloc: Global) -> Result<Table, Fail>
    ensures level { IfOk result (λ t. t.level ≡ 2) }
    ensures last { IfOk result (λ t. length t.polys ≡ 5) }
{
    let polys = class_three_polys(alloc)?;
    let table = Table::of(alloc, 2, polys)?;
    Ok(table)
}

/// Products by that table.
fn class_three_products(
    alloc: Global,
    table: &Table,
    rows: &mut Rows,
    out: &mut Vector,
) -> Result<bool, Fail>
    requires last { last_of table.now ≡ 6 }
    requires out { length out.old ≡ 6 }
    requires rows { HasRows table.now rows.old }
{
    let (a, b) = ([0, 1, 2, 3, 4, 5], [0, 3, 4, 5, 6, 7]);
    let first = leaves(
        alloc,
        table,
        rows,
        out,
        &a,
        &b,
        Ok(()),
        &[0, 4, 6, 14, 40, 90],
    )?;
    // -2 over 2 is 3, and -3 over 2 is 6.
    let (a, b) = ([0, -1, -2, 3, 4, 5], [0, -3, 4, 5, 6, 7]);
    let second = leaves(
        alloc,
        table,
        rows,
        out,
        &a,
        &b,
        Ok(()),
        &[0, -4, 2, 14, -32, 66],
    )?;
    Ok(first && second)
}

#[test]
fn a_table_from_level_two_has_no_first_entry(rt: HostRuntime) -> Result<(), Fail> {
    let alloc = rt.alloc();
    let table = class_three(alloc)?;
    let mut rows = table.rows(alloc)?;
    let mut out = Vector::zero(alloc, 6)?;
    assert!(rt; class_three_products(alloc, &table, &mut rows, &mut out)?);
    Ok(())
}

/// Products where a row overflows. 2^64 (2^64 - 1) overflows in the row of x3 and in that of y2: the
/// rows of x come first.
fn first_rows(alloc: Global, table: &Table, rows: &mut Rows, out: &mut Vector) -> Result<bool, Fail>
    requires last { last_of table.now ≡ 6 }
    requires out { length out.old ≡ 6 }
    requires rows { HasRows table.now rows.old }
    ensures out { length out.new ≡ 6 }
    ensures rows { HasRows table.now rows.new }
{
    let (x, y) = ([0, 0, 1 << 64, 0, 0, 0], [0, 1 << 64, 0, 0, 0, 0]);
    let wide_x = leaves(
        alloc,
        table,
        rows,
        out,
        &x,
        &y,
        Err(WideAt::RowX(3)),
        &[0; 6],
    )?;
    let wide_y = leaves(
        alloc,
        table,
        rows,
        out,
        &[0; 6],
        &y,
        Err(WideAt::RowY(2)),
        &[0; 6],
    )?;
    Ok(wide_x && wide_y)
}

/// Whether an `x3` and zeros give that, and another is refused in its row and changes nothing.
fn is_last(
    alloc: Global,
    table: &Table,
    rows: &mut Rows,
    out: &mut Vector,
    last: i128,
    next: i128,
) -> Result<bool, Fail>
    requires last { last_of table.now ≡ 6 }
    requires out { length out.old ≡ 6 }
    requires rows { HasRows table.now rows.old }
    ensures out { length out.new ≡ 6 }
    ensures rows { HasRows table.now rows.new }
{
    let zeros = [0; 6];
    let (last, next) = ([0, 0, last, 0, 0, 0], [0, 0, next, 0, 0, 0]);
    let kept = leaves(alloc, table, rows, out, &last, &zeros, Ok(()), &last)?;
    let refused = leaves(
        alloc,
        table,
        rows,
        out,
        &next,
        &zeros,
        Err(WideAt::RowX(3)),
        &last,
    )?;
    Ok(kept && refused)
}

/// The greatest and the least x with x (x - 1) up to 2^127 - 1.
fn last_rows(alloc: Global, table: &Table, rows: &mut Rows, out: &mut Vector) -> Result<bool, Fail>
    requires last { last_of table.now ≡ 6 }
    requires out { length out.old ≡ 6 }
    requires rows { HasRows table.now rows.old }
{
    let most: i128 = 13043817825332782212;
    let greatest = is_last(alloc, table, rows, out, most, most + 1)?;
    let least = is_last(alloc, table, rows, out, 1 - most, -most)?;
    Ok(greatest && least)
}

#[test]
fn the_first_place_that_overflows_is_named(rt: HostRuntime) -> Result<(), Fail> {
    let alloc = rt.alloc();
    let table = class_three(alloc)?;
    let mut rows = table.rows(alloc)?;
    let mut out = Vector::zero(alloc, 6)?;
    assert!(rt; first_rows(alloc, &table, &mut rows, &mut out)?);
    assert!(rt; last_rows(alloc, &table, &mut rows, &mut out)?);
    Ok(())
}

/// Whether the sum of a generator is the first that overflows, with an `x4` and where x3 y2 is 2^126.
fn is_wide(
    alloc: Global,
    table: &Table,
    rows: &mut Rows,
    out: &mut Vector,
    fourth: i128,
    k: u32,
) -> Result<bool, Fail>
    requires last { last_of table.now ≡ 6 }
    requires out { length out.old ≡ 6 }
    requires rows { HasRows table.now rows.old }
    ensures out { length out.new ≡ 6 }
    ensures rows { HasRows table.now rows.new }
{
    let (a, b) = ([0, 0, 1 << 63, fourth, 0, 0], [0, 1 << 63, 0, 0, 0, 0]);
    leaves(
        alloc,
        table,
        rows,
        out,
        &a,
        &b,
        Err(WideAt::Sum(k)),
        &[0; 6],
    )
}

/// Sums of which x4 is 2^126 with either sign. One less, and the next sum is the first.
fn wide_sums(alloc: Global, table: &Table, rows: &mut Rows, out: &mut Vector) -> Result<bool, Fail>
    requires last { last_of table.now ≡ 6 }
    requires out { length out.old ≡ 6 }
    requires rows { HasRows table.now rows.old }
{
    let with_sum = is_wide(alloc, table, rows, out, 1 << 126, 4)?;
    let with_difference = is_wide(alloc, table, rows, out, -(1 << 126), 4)?;
    let with_less = is_wide(alloc, table, rows, out, (1 << 126) - 1, 5)?;
    Ok(with_sum && with_difference && with_less)
}

#[test]
fn a_sum_overflows_by_the_magnitudes_of_its_terms(rt: HostRuntime) -> Result<(), Fail> {
    let alloc = rt.alloc();
    let table = class_three(alloc)?;
    let mut rows = table.rows(alloc)?;
    let mut out = Vector::zero(alloc, 6)?;
    assert!(rt; wide_sums(alloc, &table, &mut rows, &mut out)?);
    Ok(())
}
