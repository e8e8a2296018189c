//! Faults of the outside, alone and together.

use super::fixtures::{HEISENBERG, HEISENBERG_TABLE, run_over, shelf_of_both, source_of, words_of};
use nil_io::MemorySource;
use std::test::Fail;

/// Words, the bytes of the source, the calls of shelf, source and sink that fail, what a session
/// writes, and the number of its status.
#[rattlefmt::skip]
const FAULTS: [(&[&str], &str, [&[u64]; 3], &str, u8); 5] = [
    (&["run", "f", "t"], "a1",        [&[2], &[],  &[]],  "read fault\n", 6),
    (&["run", "f"],      "a2^3*a1^5", [&[],  &[2], &[]],  "read fault\n", 6),
    (&["run"],           "a1",        [&[],  &[],  &[1]], "",             7),
    (&["run", "f"],      "a1",        [&[],  &[1], &[1]], "",             7),
    (&["run", "g"],      "a1",        [&[],  &[],  &[]],  "read fault\n", 6),
];

#[test]
fn each_fault_of_the_outside_has_its_status(rt: HostRuntime) -> Result<(), Fail> {
    let alloc = rt.alloc();
    for (texts, queries, [shelf_fails, source_fails, sink_fails], output, number) in FAULTS {
        let words = words_of(alloc, texts)?;
        let mut shelf = shelf_of_both(alloc, HEISENBERG, HEISENBERG_TABLE, shelf_fails)?;
        let mut source = source_of(alloc, queries.as_bytes(), source_fails)?;
        let ended = run_over(alloc, &words, &mut shelf, &mut source, sink_fails)?;
        assert_eq!(rt; ended.bytes.as_slice(), output.as_bytes(), "{queries}");
        assert_eq!(rt; ended.status.number(), number, "{queries}");
    }
    Ok(())
}

#[test]
fn a_line_that_was_read_is_answered_before_a_fault(rt: HostRuntime) -> Result<(), Fail> {
    let alloc = rt.alloc();
    let words = words_of(alloc, &["run", "f"])?;
    let mut shelf = shelf_of_both(alloc, HEISENBERG, HEISENBERG_TABLE, &[])?;
    let queries = b"a2^3*a1^5\na1".to_vec(alloc)?;
    let mut source = MemorySource::new(queries, 1, vec![in alloc; 11]?);
    let ended = run_over(alloc, &words, &mut shelf, &mut source, &[])?;
    assert_eq!(rt; ended.bytes.as_slice(), b"5 3 15\nread fault\n".as_slice());
    assert_eq!(rt; ended.status.number(), 6);
    Ok(())
}
