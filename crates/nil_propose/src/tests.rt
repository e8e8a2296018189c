//! Worked calls, of proposers in boxes too.

ghost use Rattle.std.specs.Prelude.{◌≡◌, ◌≤◌, length, IfOk};
ghost use Rattle.binom_poly.specs.Monomial.{IsVariable};

use crate::{Forgetful, Listed, Offer, Proposer};
use binom_poly::{Poly, add, mul, text, var};
use hall_table::{Memory, Table};
use nil_pres::{Builder, Presentation, Syllable};
use std::alloc::Global;
use std::test::Fail;

/// x_k + y_k
fn sum(alloc: Global, x: u32, y: u32) -> Result<Poly, Fail>
    requires x { IsVariable x }
    requires y { IsVariable y }
{
    Ok(add(alloc, &var(alloc, x)?, &var(alloc, y)?)?)
}

/// The table x1 + y1, x2 + y2, x3 + y3 + x2*y1 of the Heisenberg group.
fn heisenberg(alloc: Global) -> Result<Table, Fail> {
    let product = mul(alloc, &var(alloc, 2)?, &var(alloc, 65)?)?;
    let third = add(alloc, &sum(alloc, 3, 67)?, &product)?;
    let mut polys = Vec::new(alloc);
    polys.push(sum(alloc, 1, 65)?)?;
    polys.push(sum(alloc, 2, 66)?)?;
    polys.push(third)?;
    Ok(Table::of(alloc, 1, polys)?)
}

/// The table x2 + y2, x3 + y3.
fn flat(alloc: Global) -> Result<Table, Fail> {
    let mut polys = Vec::new(alloc);
    polys.push(sum(alloc, 2, 66)?)?;
    polys.push(sum(alloc, 3, 67)?)?;
    Ok(Table::of(alloc, 2, polys)?)
}

/// Three generators with [a2,a1] = a3.
fn presentation(alloc: Global) -> Result<Presentation, Fail>
    ensures { IfOk result (λ p. length p.names ≡ 3) }
{
    let mut builder = Builder::new(alloc)?;
    builder.add_name("a1")?;
    builder.add_name("a2")?;
    builder.add_name("a3")?;
    builder.add_relation(2, 1, &[Syllable { number: 3, exp: 1 }])?;
    let pres = builder.finish().ok_or("no name")?;
    Ok(pres)
}

/// The offers of a flat table at level 2, of the Heisenberg group's at level 2, and of that at
/// level 3.
fn offers(alloc: Global) -> Result<Vec<Offer>, Fail> {
    let mut offers = Vec::new(alloc);
    offers.push(Offer {
        level: 2,
        table: flat(alloc)?,
    })?;
    offers.push(Offer {
        level: 2,
        table: heisenberg(alloc)?,
    })?;
    offers.push(Offer {
        level: 3,
        table: heisenberg(alloc)?,
    })?;
    Ok(offers)
}

/// The label, and the last polynomial of the table that a proposer gives.
fn asked(
    alloc: Global,
    proposer: &mut Box<dyn Proposer>,
    pres: &Presentation,
    level: u32,
) -> Result<String, Fail>
    requires least { 1 ≤ level }
    requires most { level ≤ length pres.now.names }
{
    let label = proposer.label();
    let answer = match proposer.propose(alloc, pres, level) {
        Ok(Some(table)) => text(alloc, &table.poly(alloc, table.last())?)?,
        Ok(None) => String::from_str(alloc, "none")?,
        Err(_) => String::from_str(alloc, "memory")?,
    };
    Ok(format!(in alloc; "{label} {answer}")?)
}

#[test]
fn the_first_offer_of_the_level_is_given(rt: HostRuntime) -> Result<(), Fail> {
    let alloc = rt.alloc();
    let pres = presentation(alloc)?;
    let mut listed: Box<dyn Proposer> = Box::new(alloc, Listed::new(9, offers(alloc)?))?;
    assert!(rt; asked(alloc, &mut listed, &pres, 1)?.as_str() == "9 none");
    assert!(rt; asked(alloc, &mut listed, &pres, 2)?.as_str() == "9 x3 + y3");
    assert!(rt; asked(alloc, &mut listed, &pres, 3)?.as_str() == "9 x3 + y3 + x2*y1");
    assert!(rt; asked(alloc, &mut listed, &pres, 2)?.as_str() == "9 x3 + y3");
    Ok(())
}

#[test]
fn proposers_in_a_list_are_asked_in_turn(rt: HostRuntime) -> Result<(), Fail> {
    let alloc = rt.alloc();
    let pres = presentation(alloc)?;
    let mut proposers: Vec<Box<dyn Proposer>> = Vec::new(alloc);
    proposers.push(Box::new(alloc, Listed::new(5, Vec::new(alloc)))?)?;
    let forgetful = Forgetful::new(Listed::new(6, offers(alloc)?), 2);
    proposers.push(Box::new(alloc, forgetful)?)?;
    let rounds = [
        ["5 none", "6 x3 + y3"],
        ["5 none", "6 memory"],
        ["5 none", "6 x3 + y3"],
    ];
    for round in rounds {
        for (proposer, reply) in proposers.iter_mut().zip(round) {
            assert!(rt; asked(alloc, proposer, &pres, 2)?.as_str() == reply);
        }
    }
    Ok(())
}
