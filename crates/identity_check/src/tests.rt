//! Worked rows.

ghost use Rattle.std.specs.Prelude.{◌≡◌, ◌≤◌, length, IfOk};
ghost use Rattle.nil_num.specs.Bound.{IsNumber};
ghost use Rattle.hall_table.specs.Tabled.{last_of};

use crate::*;
use binom_poly::{Poly, add, mul, scale, var, x_of, y_of, zero};
use hall_table::Table;
use nil_num::MAX;
use nil_pres::{Builder, Presentation, Syllable};
use poly_subst::choose;
use std::alloc::Global;
use std::test::Fail;

/// Three generators with [a2,a1] = a3.
fn heisenberg(alloc: Global) -> Result<Presentation, Fail>
    ensures { IfOk result (λ p. length p.names ≡ 3) }
{
    let mut builder = Builder::new(alloc)?;
    builder.add_name("a1")?;
    builder.add_name("a2")?;
    builder.add_name("a3")?;
    builder.add_relation(2, 1, &[Syllable { number: 3, exp: 1 }])?;
    let pres = builder.finish().ok_or("no name")?;
    Ok(pres)
}

/// Two generators that commute.
fn two_free(alloc: Global) -> Result<Presentation, Fail>
    ensures { IfOk result (λ p. length p.names ≡ 2) }
{
    let mut builder = Builder::new(alloc)?;
    builder.add_name("a1")?;
    builder.add_name("a2")?;
    let pres = builder.finish().ok_or("no name")?;
    Ok(pres)
}

/// `x_k + y_k`.
fn sum_of_both(alloc: Global, k: u32) -> Result<Poly, Fail>
    requires least { 1 ≤ k }
    requires most { k ≤ 48 }
{
    let sum = add(alloc, &var(alloc, x_of(k))?, &var(alloc, y_of(k))?)?;
    Ok(sum)
}

/// The table x1 + y1, x2 + y2, x3 + y3 + more.
fn three(alloc: Global, more: &Poly) -> Result<Table, Fail>
    ensures level { IfOk result (λ t. t.level ≡ 1) }
    ensures last { IfOk result (λ t. length t.polys ≡ 3) }
{
    let first = sum_of_both(alloc, 1)?;
    let second = sum_of_both(alloc, 2)?;
    let third = add(alloc, &sum_of_both(alloc, 3)?, more)?;
    let mut polys = Vec::new(alloc);
    polys.push(first)?;
    polys.push(second)?;
    polys.push(third)?;
    let table = Table::of(alloc, 1, polys)?;
    Ok(table)
}

#[test]
fn the_table_of_a_presentation_is_accepted(rt: HostRuntime) -> Result<(), Fail> {
    let alloc = rt.alloc();
    let more = mul(alloc, &var(alloc, x_of(2))?, &var(alloc, y_of(1))?)?;
    let table = three(alloc, &more)?;
    let verdict = check(alloc, &heisenberg(alloc)?, table)?;
    assert!(rt; matches!(&verdict, Verdict::Accepted(_)));
    Ok(())
}

#[test]
fn variables_in_the_wrong_order_are_refused_at_a_point(rt: HostRuntime) -> Result<(), Fail> {
    let alloc = rt.alloc();
    let more = mul(alloc, &var(alloc, x_of(1))?, &var(alloc, y_of(2))?)?;
    let table = three(alloc, &more)?;
    let Verdict::Refused(failure) = check(alloc, &heisenberg(alloc)?, table)? else {
        return Err("not refused".into());
    };
    assert!(rt; failure.identity == Identity::Up { j: 2, k: 3 });
    assert!(rt; failure.point.as_slice() == [At { var: 1, value: 1 }].as_slice());
    assert!(rt; failure.left == 1 && failure.right == 0);
    Ok(())
}

#[test]
fn a_wrong_sign_breaks_the_relation(rt: HostRuntime) -> Result<(), Fail> {
    let alloc = rt.alloc();
    let product = mul(alloc, &var(alloc, x_of(2))?, &var(alloc, y_of(1))?)?;
    let table = three(alloc, &scale(alloc, &product, -1)?)?;
    let Verdict::Refused(failure) = check(alloc, &heisenberg(alloc)?, table)? else {
        return Err("not refused".into());
    };
    assert!(rt; failure.identity == Identity::Relation { j: 1, l: 2, k: 3 });
    assert!(rt; failure.point.is_empty());
    assert!(rt; failure.left == -1 && failure.right == 1);
    Ok(())
}

/// `c * x_k * C(y_1,m)`.
fn extra(alloc: Global, c: i128, k: u32, m: u32) -> Result<Poly, Fail>
    requires number { IsNumber c }
    requires least { 1 ≤ k }
    requires most { k ≤ 48 }
    requires small { m ≤ 1000 }
{
    let power = choose(alloc, &var(alloc, y_of(1))?, m)?;
    let product = mul(alloc, &var(alloc, x_of(k))?, &power)?;
    let extra = scale(alloc, &product, c)?;
    Ok(extra)
}

/// Whether the table x1 + y1, x2 + y2, x3 + y3 + more is refused so.
fn is_refused(
    alloc: Global,
    more: &Poly,
    identity: Identity,
    point: &[At],
    left: i128,
    right: i128,
) -> Result<bool, Fail> {
    let table = three(alloc, more)?;
    let Verdict::Refused(failure) = check(alloc, &heisenberg(alloc)?, table)? else {
        return Ok(false);
    };
    Ok(
        failure.identity == identity
            && failure.point.as_slice() == point
            && failure.left == left
            && failure.right == right,
    )
}

// Where the steps of a generator stay on, those of its inverse do: none of these fails first.
#[test]
fn each_other_kind_of_identity_fails_at_its_point(rt: HostRuntime) -> Result<(), Fail> {
    let alloc = rt.alloc();
    let at_x = [At { var: 1, value: 1 }];
    let at_y = [At { var: 65, value: 1 }];
    let at_both = [At { var: 1, value: 1 }, At { var: 65, value: 1 }];
    let unit = extra(alloc, 1, 1, 0)?;
    assert!(rt; is_refused(alloc, &unit, Identity::UnitRight { k: 3 }, &at_x, 1, 0)?);
    let unit = var(alloc, y_of(1))?;
    assert!(rt; is_refused(alloc, &unit, Identity::UnitLeft { k: 3 }, &at_y, 1, 0)?);
    let up = extra(alloc, 1, 1, 1)?;
    assert!(rt; is_refused(alloc, &up, Identity::Up { j: 1, k: 3 }, &at_x, 1, 0)?);
    // y over 2 is 0 at 0 and 1, and it is 1 at -1.
    let down = extra(alloc, 1, 1, 2)?;
    assert!(rt; is_refused(alloc, &down, Identity::Down { j: 1, k: 3 }, &at_x, 1, 0)?);
    // y over 2 and y over 3 sum to y + 1 over 3, which is 0 at 0, 1 and -1, and 1 at 2.
    let step = add(alloc, &down, &extra(alloc, 1, 1, 3)?)?;
    assert!(rt;
        is_refused(
            alloc,
            &step,
            Identity::StepUp { j: 1, k: 3 },
            &at_both,
            1,
            0
        )?
    );
    let pair = Identity::Relation { j: 1, l: 2, k: 3 };
    assert!(rt; is_refused(alloc, &zero(alloc), pair, &[], 0, 1)?);
    Ok(())
}

/// Whether an operation of this identity is the first that overflows.
fn is_wide(
    alloc: Global,
    pres: &Presentation,
    table: Table,
    identity: Identity,
) -> Result<bool, Fail>
    requires { last_of table ≡ length pres.now.names }
{
    let Verdict::Wide(named) = check(alloc, pres, table)? else {
        return Ok(false);
    };
    Ok(named == identity)
}

/// The table x1 + y1, x2 + y2 + more.
fn two(alloc: Global, more: &Poly) -> Result<Table, Fail>
    ensures level { IfOk result (λ t. t.level ≡ 1) }
    ensures last { IfOk result (λ t. length t.polys ≡ 2) }
{
    let first = sum_of_both(alloc, 1)?;
    let second = add(alloc, &sum_of_both(alloc, 2)?, more)?;
    let mut polys = Vec::new(alloc);
    polys.push(first)?;
    polys.push(second)?;
    let table = Table::of(alloc, 1, polys)?;
    Ok(table)
}

#[test]
fn the_first_identity_that_overflows_is_named(rt: HostRuntime) -> Result<(), Fail> {
    let alloc = rt.alloc();
    let more = add(alloc, &extra(alloc, MAX, 1, 2)?, &extra(alloc, MAX, 1, 3)?)?;
    let down = Identity::Down { j: 1, k: 2 };
    assert!(rt; is_wide(alloc, &two_free(alloc)?, two(alloc, &more)?, down)?);
    Ok(())
}

/// Five generators that commute.
fn five_free(alloc: Global) -> Result<Presentation, Fail>
    ensures { IfOk result (λ p. length p.names ≡ 5) }
{
    let mut builder = Builder::new(alloc)?;
    builder.add_name("a1")?;
    builder.add_name("a2")?;
    builder.add_name("a3")?;
    builder.add_name("a4")?;
    builder.add_name("a5")?;
    let pres = builder.finish().ok_or("no name")?;
    Ok(pres)
}

/// `x5 + y5 + c*x4*y1 + c*x3*C(y1,2) + c*x2*C(y1,3) + c*x2*y1`.
fn fifth(alloc: Global, c: i128) -> Result<Poly, Fail>
    requires { IsNumber c }
{
    let chain = add(alloc, &extra(alloc, c, 4, 1)?, &extra(alloc, c, 3, 2)?)?;
    let tail = add(alloc, &extra(alloc, c, 2, 3)?, &extra(alloc, c, 2, 1)?)?;
    let more = add(alloc, &chain, &tail)?;
    let fifth = add(alloc, &sum_of_both(alloc, 5)?, &more)?;
    Ok(fifth)
}

/// The table in which a1 takes a2 to a2 a3 a5^c, a3 to a3 a4 and a4 to a4 a5^c.
fn five(alloc: Global, c: i128) -> Result<Table, Fail>
    requires { IsNumber c }
    ensures level { IfOk result (λ t. t.level ≡ 1) }
    ensures last { IfOk result (λ t. length t.polys ≡ 5) }
{
    let third = add(alloc, &sum_of_both(alloc, 3)?, &extra(alloc, 1, 2, 1)?)?;
    let more = add(alloc, &extra(alloc, 1, 3, 1)?, &extra(alloc, 1, 2, 2)?)?;
    let fourth = add(alloc, &sum_of_both(alloc, 4)?, &more)?;
    let mut polys = Vec::new(alloc);
    polys.push(sum_of_both(alloc, 1)?)?;
    polys.push(sum_of_both(alloc, 2)?)?;
    polys.push(third)?;
    polys.push(fourth)?;
    polys.push(fifth(alloc, c)?)?;
    let table = Table::of(alloc, 1, polys)?;
    Ok(table)
}

// Besides these only a last inverse can overflow first: in the others no two terms come together.
#[test]
fn each_kind_of_step_can_overflow_first(rt: HostRuntime) -> Result<(), Fail> {
    let alloc = rt.alloc();
    // With y1 + 1 in place of y1 both terms have x2*y1.
    let more = add(alloc, &extra(alloc, MAX, 2, 1)?, &extra(alloc, MAX, 2, 2)?)?;
    let up = Identity::StepUp { j: 1, k: 3 };
    assert!(rt; is_wide(alloc, &heisenberg(alloc)?, three(alloc, &more)?, up)?);
    // With -1 in place of y1 two terms have x2; with y1 + 1 they have no monomial in common.
    let down = Identity::StepDown { j: 1, k: 5 };
    assert!(rt; is_wide(alloc, &five_free(alloc)?, five(alloc, 1 << 126)?, down)?);
    Ok(())
}
