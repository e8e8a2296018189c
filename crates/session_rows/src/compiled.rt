//! Presentations that are compiled, inconsistent or wide.

use super::fixtures::{FREE, INCONSISTENT, answered};
use std::test::Fail;

const WIDE_OVERLAP: &str = "nilpotent 1\ngenerators a1 a2 a3 a4 a5 a6\n\
    [a2,a1] = a5^9223372036854775807\n[a3,a1] = a4^9223372036854775807\n\
    [a5,a4] = a6^9223372036854775807\n";

const WIDE_SUM: &str = "nilpotent 1\ngenerators a1 a2 a3 a4 a5\n[a2,a1] = a3^9223372036854775807\n\
    [a3,a1] = a4^9223372036854775807\n[a4,a1] = a5^9223372036854775807\n";

/// Files, what a session with the query `a2^2*a1^3` writes, and the number of its status.
#[rattlefmt::skip]
const ROWS: [(&str, &str, u8); 4] = [
    (FREE,         "3 2 6 6 3\n",                                   0),
    (INCONSISTENT, "inconsistent a3 a2 a1\n1 1 1 1 1\n1 1 1 1 0\n", 4),
    (WIDE_OVERLAP, "wide overlap a3 a2 a1\n",                       5),
    (WIDE_SUM,     "wide sum level 1 image 2 5\n",                  5),
];

#[test]
fn a_compile_answers_or_says_why_not(rt: HostRuntime) -> Result<(), Fail> {
    for (file, output, number) in ROWS {
        let ended = answered(rt.alloc(), file.as_bytes(), b"a2^2*a1^3")?;
        assert_eq!(rt; ended.bytes.as_slice(), output.as_bytes(), "{output}");
        assert_eq!(rt; ended.status.number(), number, "{output}");
    }
    Ok(())
}
