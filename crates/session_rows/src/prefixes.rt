//! Files that are cut off anywhere.

use super::fixtures::{HEISENBERG, HEISENBERG_TABLE, answered, by_table};
use std::test::Fail;

/// Lengths from and to, what a session without queries writes over a prefix of `HEISENBERG` of such
/// a length, and the number of its status.
#[rattlefmt::skip]
const PREFIXES: [(usize, usize, &str, u8); 6] = [
    ( 0, 10, "file 1 header\n",   3),
    (11, 23, "file 2 header\n",   3),
    (24, 32, "",                  0),
    (33, 42, "file 3 relation\n", 3),
    (43, 43, "file 3 name\n",     3),
    (44, 45, "",                  0),
];

#[test]
fn each_prefix_of_a_presentation_is_read_or_gets_its_first_fault(
    rt: HostRuntime,
) -> Result<(), Fail> {
    for (from, to, output, number) in PREFIXES {
        for length in from..=to {
            let prefix = HEISENBERG.as_bytes().get(..length).ok_or("too long")?;
            let ended = answered(rt.alloc(), prefix, b"")?;
            assert_eq!(rt; ended.bytes.as_slice(), output.as_bytes(), "{length}");
            assert_eq!(rt; ended.status.number(), number, "{length}");
        }
    }
    Ok(())
}

#[test]
fn a_table_is_accepted_only_whole(rt: HostRuntime) -> Result<(), Fail> {
    let alloc = rt.alloc();
    let whole = HEISENBERG_TABLE.len();
    let mut prefix = String::new(alloc);
    for next in HEISENBERG_TABLE.chars() {
        let ended = by_table(alloc, HEISENBERG, prefix.as_str(), b"")?;
        let cut = prefix.len() + 1 < whole;
        let output = if cut { "table json\n" } else { "" };
        assert_eq!(rt; ended.bytes.as_slice(), output.as_bytes(), "{prefix}");
        let number = if cut { 9 } else { 0 };
        assert_eq!(rt; ended.status.number(), number, "{prefix}");
        prefix.push(next)?;
    }
    let ended = by_table(alloc, HEISENBERG, prefix.as_str(), b"")?;
    assert!(rt; ended.bytes.is_empty());
    assert_eq!(rt; ended.status.number(), 0);
    Ok(())
}
