//! Query lines that the collector answers.

use super::fixtures::{Ended, HEISENBERG, INCONSISTENT, run_over, shelf_of, source_of, words_of};
use std::alloc::{AllocError, Global};
use std::test::Fail;

/// A session of the collector over a file and queries.
fn collected(alloc: Global, file: &str, queries: &[u8]) -> Result<Ended, AllocError> {
    let words = words_of(alloc, &["collect", "f"])?;
    let mut shelf = shelf_of(alloc, file.as_bytes(), &[])?;
    let mut source = source_of(alloc, queries, &[])?;
    run_over(alloc, &words, &mut shelf, &mut source, &[])
}

/// Files, lines, what a session writes, and the number of its status.
#[rattlefmt::skip]
const ROWS: [(&str, &str, &str, u8); 7] = [
    (HEISENBERG,   "a2^2*a1^2",      "2 2 4\n",     0),
    (HEISENBERG,   "a1^65\na1^64",   "longword\n64 0 0\n", 0),
    (HEISENBERG,   "solve a1 | a2",  "kind\n",      0),
    (HEISENBERG,   "1^170141183460469231731687303715884105727", "0 0 0\n", 0),
    (HEISENBERG,   "\na1*\n",        "syntax 4\n",  0),
    (INCONSISTENT, "a3*a2*a1",       "1 1 1 1 1\n", 0),
    ("nilpotent 2", "a1",            "file 1 header\n", 3),
];

#[test]
fn each_line_is_collected_by_itself(rt: HostRuntime) -> Result<(), Fail> {
    for (file, queries, output, number) in ROWS {
        let ended = collected(rt.alloc(), file, queries.as_bytes())?;
        assert_eq!(rt; ended.bytes.as_slice(), output.as_bytes(), "{queries}");
        assert_eq!(rt; ended.status.number(), number, "{queries}");
    }
    Ok(())
}
