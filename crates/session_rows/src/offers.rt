//! What a check says of the tables that proposers offer.

use super::fixtures::{HEISENBERG, HEISENBERG_TABLE};
use super::proposers::{proposed, proposed_by};
use super::tables::{PLANE, PLANE_TABLE};
use binom_poly::{add, mul, var, x_of, y_of};
use hall_table::Table;
use nil_propose::{Listed, Offer, Proposer};
use poly_subst::choose;
use std::alloc::Global;
use std::test::Fail;
use table_json::read_table;

/// A proposer with one offer.
fn offering(alloc: Global, label: u32, level: u32, table: Table) -> Result<Listed, Fail> {
    let mut offers = Vec::new(alloc);
    offers.push(Offer { level, table })?;
    Ok(Listed::new(label, offers))
}

/// The table x2 + y2, x3 + y3 + C(x2,1000)*y2.
fn steep(alloc: Global) -> Result<Table, Fail> {
    let power = choose(alloc, &var(alloc, x_of(2))?, 1000)?;
    let more = mul(alloc, &power, &var(alloc, y_of(2))?)?;
    let third = add(alloc, &var(alloc, x_of(3))?, &var(alloc, y_of(3))?)?;
    let mut polys = Vec::new(alloc);
    polys.push(add(alloc, &var(alloc, x_of(2))?, &var(alloc, y_of(2))?)?)?;
    polys.push(add(alloc, &third, &more)?)?;
    Ok(Table::of(alloc, 2, polys)?)
}

#[test]
fn a_table_that_is_true_at_small_points_alone_is_refused(rt: HostRuntime) -> Result<(), Fail> {
    let alloc = rt.alloc();
    let offer = offering(alloc, 9, 2, steep(alloc)?)?;
    let ended = proposed_by(alloc, &["check", "f"], HEISENBERG, Box::new(alloc, offer)?)?;
    let lines = "consistent\nlevel 3 base\nlevel 2 asked 9 refused up 2 3\nlevel 2 sum\n\
        level 1 asked 9 none\nlevel 1 sum\n";
    assert_eq!(rt; ended.bytes.as_slice(), lines.as_bytes());
    assert_eq!(rt; ended.status.number(), 0);
    Ok(())
}

#[test]
fn a_table_of_another_level_or_a_wide_one_is_not_taken(rt: HostRuntime) -> Result<(), Fail> {
    let alloc = rt.alloc();
    let table = read_table(alloc, HEISENBERG_TABLE.as_bytes(), 3)?;
    let offer = offering(alloc, 9, 2, table)?;
    let ended = proposed_by(alloc, &["check", "f"], HEISENBERG, Box::new(alloc, offer)?)?;
    let lines = "consistent\nlevel 3 base\nlevel 2 asked 9 wrong level\nlevel 2 sum\n\
        level 1 asked 9 none\nlevel 1 sum\n";
    assert_eq!(rt; ended.bytes.as_slice(), lines.as_bytes());
    assert_eq!(rt; ended.status.number(), 0);
    let table = read_table(alloc, PLANE_TABLE.as_bytes(), 2)?;
    let offer = offering(alloc, 9, 1, table)?;
    let ended = proposed_by(alloc, &["check", "f"], PLANE, Box::new(alloc, offer)?)?;
    let lines = "consistent\nlevel 2 base\nlevel 1 asked 9 wide down 1 2\nlevel 1 sum\n";
    assert_eq!(rt; ended.bytes.as_slice(), lines.as_bytes());
    assert_eq!(rt; ended.status.number(), 0);
    Ok(())
}

#[test]
fn of_two_proposers_the_one_with_a_true_table_is_believed(rt: HostRuntime) -> Result<(), Fail> {
    let alloc = rt.alloc();
    let table = read_table(alloc, HEISENBERG_TABLE.as_bytes(), 3)?;
    let mut proposers: Vec<Box<dyn Proposer>> = Vec::new(alloc);
    proposers.push(Box::new(alloc, Listed::new(5, Vec::new(alloc)))?)?;
    proposers.push(Box::new(alloc, offering(alloc, 5, 1, table)?)?)?;
    let ended = proposed(alloc, &["check", "f"], HEISENBERG, proposers)?;
    let lines = "consistent\nlevel 3 base\nlevel 2 asked 5 none\nlevel 2 asked 5 none\n\
        level 2 sum\nlevel 1 asked 5 none\nlevel 1 proposer 5\n";
    assert_eq!(rt; ended.bytes.as_slice(), lines.as_bytes());
    assert_eq!(rt; ended.status.number(), 0);
    Ok(())
}
