//! What compiles say.

use super::saying::{powers_text, said, summed_table, wants_memory};
use super::tables::{heisenberg, listed, steep, wide};
use nil_propose::{Forgetful, Listed, Proposer};
use std::alloc::Global;
use std::test::Fail;
use tree_propose::TreeProposer;

/// A list of one proposer.
fn one(alloc: Global, proposer: Box<dyn Proposer>) -> Result<Vec<Box<dyn Proposer>>, Fail> {
    let mut proposers = Vec::new(alloc);
    proposers.push(proposer)?;
    Ok(proposers)
}

const HEIS: &str = "nilpotent 1\ngenerators a1 a2 a3\n[a2,a1] = a3\n";

const FREE23: &str = "nilpotent 1\ngenerators a1 a2 a3 a4 a5\n[a2,a1] = a3\n[a3,a1] = a4\n\
    [a3,a2] = a5\n";

const INCONSISTENT: &str = "nilpotent 1\ngenerators a1 a2 a3 a4 a5\n[a3,a2] = a4\n[a4,a1] = a5\n";

const WIDE_OVERLAP: &str = "nilpotent 1\ngenerators a1 a2 a3 a4 a5 a6\n\
    [a2,a1] = a5^9223372036854775807\n[a3,a1] = a4^9223372036854775807\n\
    [a5,a4] = a6^9223372036854775807\n";

const WIDE_SUM: &str = "nilpotent 1\ngenerators a1 a2 a3 a4 a5\n[a2,a1] = a3^9223372036854775807\n\
    [a3,a1] = a4^9223372036854775807\n[a4,a1] = a5^9223372036854775807\n";

const PLANE: &str = "nilpotent 1\ngenerators a1 a2\n";

/// Files, what their compiles say without a proposer, and with the proposer of trees.
#[rattlefmt::skip]
const ROWS: [(&str, &str, &str); 5] = [
    (
        HEIS,
        "consistent\nlevel 3 base\nlevel 2 sum\nlevel 1 sum\n",
        "consistent\nlevel 3 base\nlevel 2 proposer 1\nlevel 1 proposer 1\n",
    ),
    (
        FREE23,
        "consistent\nlevel 5 base\nlevel 4 sum\nlevel 3 sum\nlevel 2 sum\nlevel 1 sum\n",
        "consistent\nlevel 5 base\nlevel 4 proposer 1\nlevel 3 proposer 1\nlevel 2 proposer 1\nlevel 1 proposer 1\n",
    ),
    (
        INCONSISTENT,
        "inconsistent a3 a2 a1\n1 1 1 1 1\n1 1 1 1 0\n",
        "inconsistent a3 a2 a1\n1 1 1 1 1\n1 1 1 1 0\n",
    ),
    (WIDE_OVERLAP, "wide overlap a3 a2 a1\n", "wide overlap a3 a2 a1\n"),
    (WIDE_SUM, "wide sum level 1 image 2 5\n", "wide sum level 1 image 2 5\n"),
];

#[test]
fn a_compile_decides_or_names_its_place(rt: HostRuntime) -> Result<(), Fail> {
    for (file, summed, _) in ROWS {
        let text = said(rt.alloc(), file, Vec::new(rt.alloc()))?;
        assert_eq!(rt; text.as_str(), summed);
    }
    Ok(())
}

#[test]
fn the_proposer_of_trees_is_believed_where_its_table_is_true(rt: HostRuntime) -> Result<(), Fail> {
    for (file, _, by_trees) in ROWS {
        let trees = one(rt.alloc(), Box::new(rt.alloc(), TreeProposer::new(1))?)?;
        let text = said(rt.alloc(), file, trees)?;
        assert_eq!(rt; text.as_str(), by_trees);
    }
    Ok(())
}

#[test]
fn a_summed_table_is_the_written_one(rt: HostRuntime) -> Result<(), Fail> {
    let text = summed_table(rt.alloc(), HEIS)?;
    let row =
        r#"{"format":"hall table 1","generators":3,"level":1,"polynomials":[[["1","x1",1],["1","y1",1]],[["1","x2",1],["1","y2",1]],[["1","x3",1],["1","y3",1],["1","x2",1,"y1",1]]]}"#;
    assert_eq!(rt; text.as_str(), row);
    Ok(())
}

// (a1^z1 a2^z2 a3^z3)^t, collected by hand.
#[test]
fn the_powers_of_a_vector(rt: HostRuntime) -> Result<(), Fail> {
    let text = powers_text(rt.alloc(), HEIS)?;
    assert_eq!(rt; text.as_str(), "z1*t\nz2*t\nz3*t + z1*z2*C(t,2)\n");
    Ok(())
}

#[test]
fn a_false_table_is_refused_at_its_level(rt: HostRuntime) -> Result<(), Fail> {
    let alloc = rt.alloc();
    let turned = listed(alloc, 7, 1, heisenberg(alloc, false)?)?;
    let text = said(alloc, HEIS, one(alloc, Box::new(alloc, turned)?)?)?;
    let lines = "consistent\nlevel 3 base\nlevel 2 asked 7 none\nlevel 2 sum\n\
        level 1 asked 7 refused relation 1 2 3\nlevel 1 sum\n";
    assert_eq!(rt; text.as_str(), lines);
    let power = listed(alloc, 9, 2, steep(alloc)?)?;
    let text = said(alloc, HEIS, one(alloc, Box::new(alloc, power)?)?)?;
    let lines = "consistent\nlevel 3 base\nlevel 2 asked 9 refused up 2 3\nlevel 2 sum\n\
        level 1 asked 9 none\nlevel 1 sum\n";
    assert_eq!(rt; text.as_str(), lines);
    Ok(())
}

#[test]
fn a_table_of_another_level_or_a_wide_one_is_not_taken(rt: HostRuntime) -> Result<(), Fail> {
    let alloc = rt.alloc();
    let low = listed(alloc, 9, 2, heisenberg(alloc, true)?)?;
    let text = said(alloc, HEIS, one(alloc, Box::new(alloc, low)?)?)?;
    let lines = "consistent\nlevel 3 base\nlevel 2 asked 9 wrong level\nlevel 2 sum\n\
        level 1 asked 9 none\nlevel 1 sum\n";
    assert_eq!(rt; text.as_str(), lines);
    let large = listed(alloc, 9, 1, wide(alloc)?)?;
    let text = said(alloc, PLANE, one(alloc, Box::new(alloc, large)?)?)?;
    let lines = "consistent\nlevel 2 base\nlevel 1 asked 9 wide down 1 2\nlevel 1 sum\n";
    assert_eq!(rt; text.as_str(), lines);
    Ok(())
}

#[test]
fn the_first_accepted_table_is_taken(rt: HostRuntime) -> Result<(), Fail> {
    let alloc = rt.alloc();
    let mut proposers = one(alloc, Box::new(alloc, Listed::new(5, Vec::new(alloc)))?)?;
    let second = listed(alloc, 6, 1, heisenberg(alloc, true)?)?;
    proposers.push(Box::new(alloc, second)?)?;
    let text = said(alloc, HEIS, proposers)?;
    let lines =
        "consistent\nlevel 3 base\nlevel 2 asked 5 none\nlevel 2 asked 6 none\nlevel 2 sum\n\
        level 1 asked 5 none\nlevel 1 proposer 6\n";
    assert_eq!(rt; text.as_str(), lines);
    Ok(())
}

#[test]
fn a_proposer_that_wants_memory_is_asked_before_any_sum(rt: HostRuntime) -> Result<(), Fail> {
    let alloc = rt.alloc();
    let forgetful = Forgetful::new(Listed::new(5, Vec::new(alloc)), 1);
    let proposers = one(alloc, Box::new(alloc, forgetful)?)?;
    assert!(rt; wants_memory(alloc, HEIS, proposers)?);
    Ok(())
}
