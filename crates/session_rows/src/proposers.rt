//! Sessions whose proposers offer a false table, or find no memory.

ghost use Rattle.std.specs.Prelude.{◌≤◌, length};

use super::fixtures::{Ended, HEISENBERG, HEISENBERG_TABLE, shelf_of_both, source_of, words_of};
use super::tables::with_last;
use nil_io::MemorySink;
use nil_propose::{Forgetful, Listed, Offer, Proposer};
use query_session::session;
use std::alloc::Global;
use std::test::Fail;
use table_json::read_table;

/// A session over a presentation in the file `f`, and the table of the Heisenberg group in `t`.
pub(crate) fn proposed(
    alloc: Global,
    texts: &[&str],
    pres: &str,
    proposers: Vec<Box<dyn Proposer>>,
) -> Result<Ended, Fail>
    requires few { length proposers.items ≤ 64 }
{
    let words = words_of(alloc, texts)?;
    let mut shelf = shelf_of_both(alloc, pres, HEISENBERG_TABLE, &[])?;
    let mut source = source_of(alloc, b"a2^3*a1^5", &[])?;
    let mut sink = MemorySink::new(Vec::with_capacity(alloc, 4096)?, Vec::new(alloc));
    let status = session(alloc, &words, &mut shelf, &mut source, &mut sink, proposers);
    let bytes = sink.bytes().to_vec(alloc)?;
    Ok(Ended { status, bytes })
}

/// A session with one proposer.
pub(crate) fn proposed_by(
    alloc: Global,
    texts: &[&str],
    pres: &str,
    proposer: Box<dyn Proposer>,
) -> Result<Ended, Fail> {
    let mut proposers = Vec::new(alloc);
    proposers.push(proposer)?;
    proposed(alloc, texts, pres, proposers)
}

#[test]
fn a_false_table_is_named_and_a_sum_stands_in_its_place(rt: HostRuntime) -> Result<(), Fail> {
    let alloc = rt.alloc();
    let turned = with_last(alloc, r#"["-1","x2",1,"y1",1]"#)?;
    let mut offers = Vec::new(alloc);
    offers.push(Offer {
        level: 1,
        table: read_table(alloc, turned.as_bytes(), 3)?,
    })?;
    let proposer = Box::new(alloc, Listed::new(7, offers))?;
    let ended = proposed_by(alloc, &["check", "f"], HEISENBERG, proposer)?;
    let lines = "consistent\nlevel 3 base\nlevel 2 asked 7 none\nlevel 2 sum\n\
        level 1 asked 7 refused relation 1 2 3\nlevel 1 sum\n";
    assert_eq!(rt; ended.bytes.as_slice(), lines.as_bytes());
    assert_eq!(rt; ended.status.number(), 0);
    Ok(())
}

/// Words, what a session writes whose proposer finds no memory, and the number of its status.
#[rattlefmt::skip]
const ROWS: [(&[&str], &str, u8); 5] = [
    (&["check", "f"],          "",         8),
    (&["run", "f"],            "",         8),
    (&["compile", "f"],        "",         8),
    (&["load", "3", "1", "1"], "",         8),
    (&["run", "f", "t"],       "5 3 15\n", 0),
];

#[test]
fn each_compile_asks_the_proposers_before_it_sums(rt: HostRuntime) -> Result<(), Fail> {
    let alloc = rt.alloc();
    for (texts, output, number) in ROWS {
        let forgetful = Forgetful::new(Listed::new(5, Vec::new(alloc)), 1);
        let ended = proposed_by(alloc, texts, HEISENBERG, Box::new(alloc, forgetful)?)?;
        assert_eq!(rt; ended.bytes.as_slice(), output.as_bytes());
        assert_eq!(rt; ended.status.number(), number);
    }
    Ok(())
}
