//! Query lines and their replies.

use super::fixtures::{HEISENBERG, HEISENBERG_TABLE, answered, by_table};
use std::alloc::{AllocError, Global};
use std::test::Fail;

#[rattlefmt::skip]
pub(crate) const ROWS: [(&str, &str); 24] = [
    ("a2^3*a1^5",                    "5 3 15\n"),
    ("a1^5*a2^3\n",                  "5 3 0\n"),
    ("1\n\n# note\n",                "0 0 0\n"),
    ("(a1*a2)^-1",                   "-1 -1 1\n"),
    ("(a1*a2)^10",                   "10 10 45\n"),
    ("solve a2 | a1\nsolve a1 | a2", "1 -1 -1\n-1 1 0\n"),
    ("a2*a1 = a1*a2\n[a2,a1] = a3",  "no\nyes\n"),
    ("quotient a1 | a2\nquotient a2 | a1", "1 -1 0\n-1 1 -1\n"),
    ("a1^a2\na2^a1",                 "1 0 -1\n0 1 1\n"),
    ("[a2,a1]^0",                    "0 0 0\n"),
    ("1^170141183460469231731687303715884105727", "0 0 0\n"),
    ("a2^85070591730234615865843651857942052863*a1^2",
        "2 85070591730234615865843651857942052863 170141183460469231731687303715884105726\n"),
    ("a2^85070591730234615865843651857942052864*a1^2", "wide\n"),
    ("a1^-170141183460469231731687303715884105728", "number 4\n"),
    ("a2*(a1\na3",                   "syntax 7\n0 0 1\n"),
    ("a3^2^3",                       "syntax 5\n"),
    ("b7",                           "unknown 1\n"),
    // a carriage return before a line feed or at the end is no part of the line, blanks are
    ("a1 \r\n",                      "1 0 0\n"),
    ("a1 \r",                        "1 0 0\n"),
    ("a1*\r\n",                      "syntax 4\n"),
    ("a1\r\r\n",                     "syntax 3\n"),
    ("\r\n \t\r\n",                  ""),
    ("",                             ""),
    // a wide line keeps nothing back from the next
    ("a1^170141183460469231731687303715884105727*a1\na1", "wide\n1 0 0\n"),
];

#[test]
fn lines_get_the_replies_that_were_worked_by_hand(rt: HostRuntime) -> Result<(), Fail> {
    for (queries, output) in ROWS {
        let ended = answered(rt.alloc(), HEISENBERG.as_bytes(), queries.as_bytes())?;
        assert_eq!(rt; ended.bytes.as_slice(), output.as_bytes(), "{queries}");
        assert_eq!(rt; ended.status.number(), 0, "{queries}");
        let ended = by_table(rt.alloc(), HEISENBERG, HEISENBERG_TABLE, queries.as_bytes())?;
        assert_eq!(rt; ended.bytes.as_slice(), output.as_bytes(), "{queries}");
    }
    Ok(())
}

#[test]
fn the_bracket_that_is_too_deep_is_named(rt: HostRuntime) -> Result<(), Fail> {
    let line = vec![in rt.alloc(); b'('; 201]?;
    let ended = answered(rt.alloc(), HEISENBERG.as_bytes(), &line)?;
    assert_eq!(rt; ended.bytes.as_slice(), b"deep 201\n".as_slice());
    Ok(())
}

const RENAMED: &str = "# Heisenberg\r\nnilpotent 1\r\ngenerators s t c\r\n\r\n[ t , s ] = c";

#[test]
fn names_comments_and_carriage_returns_make_no_difference(rt: HostRuntime) -> Result<(), Fail> {
    let ended = answered(rt.alloc(), RENAMED.as_bytes(), b"t^3 * s^5")?;
    assert_eq!(rt; ended.bytes.as_slice(), b"5 3 15\n".as_slice());
    assert_eq!(rt; ended.status.number(), 0);
    Ok(())
}

const CYCLIC: &str = "nilpotent 1\ngenerators a1";

#[test]
fn magnitudes_of_opposite_signs_are_summed(rt: HostRuntime) -> Result<(), Fail> {
    let queries =
        b"a1^7*a1^-7\na1^85070591730234615865843651857942052864*a1^-85070591730234615865843651857942052864";
    let ended = answered(rt.alloc(), CYCLIC.as_bytes(), queries)?;
    assert_eq!(rt; ended.bytes.as_slice(), b"0\nwide\n".as_slice());
    assert_eq!(rt; ended.status.number(), 0);
    Ok(())
}

/// The lines of `examples/heis.queries`, and the replies of `examples/heis.replies`.
#[rattlefmt::skip]
const EXAMPLES: [(&str, &str); 22] = [
    ("# elements, and whether two are equal", ""),
    ("a2^3*a1^5",                    "5 3 15\n"),
    ("a1^5*a2^3",                    "5 3 0\n"),
    ("a2*a1 = a1*a2",                "no\n"),
    ("[a2,a1] = a3",                 "yes\n"),
    ("",                             ""),
    ("# powers, conjugates and commutators", ""),
    ("(a1*a2)^-1",                   "-1 -1 1\n"),
    ("(a1*a2)^10",                   "10 10 45\n"),
    ("a1^a2",                        "1 0 -1\n"),
    ("a2^a1",                        "0 1 1\n"),
    ("[a2,a1]^0",                    "0 0 0\n"),
    ("",                             ""),
    ("# the x with a2 x = a1, and a1 a2^-1", ""),
    ("solve a2 | a1",                "1 -1 -1\n"),
    ("quotient a1 | a2",             "1 -1 0\n"),
    ("",                             ""),
    ("# a number past 128 bits, and lines with a fault", ""),
    ("a2^85070591730234615865843651857942052864*a1^2", "wide\n"),
    ("a1^-170141183460469231731687303715884105728", "number 4\n"),
    ("a2*(a1",                       "syntax 7\n"),
    ("b7",                           "unknown 1\n"),
];

/// The lines of the examples with their line feeds, and the replies in a row.
fn examples(alloc: Global) -> Result<(String, String), AllocError> {
    let mut queries = String::new(alloc);
    let mut replies = String::new(alloc);
    for (line, reply) in EXAMPLES {
        queries.push_str(line)?;
        queries.push_str("\n")?;
        replies.push_str(reply)?;
    }
    Ok((queries, replies))
}

#[test]
fn the_examples_hold(rt: HostRuntime) -> Result<(), Fail> {
    let (queries, replies) = examples(rt.alloc())?;
    let ended = answered(rt.alloc(), HEISENBERG.as_bytes(), queries.as_bytes())?;
    assert_eq!(rt; ended.bytes.as_slice(), replies.as_bytes());
    assert_eq!(rt; ended.status.number(), 0);
    let ended = by_table(rt.alloc(), HEISENBERG, HEISENBERG_TABLE, queries.as_bytes())?;
    assert_eq!(rt; ended.bytes.as_slice(), replies.as_bytes());
    assert_eq!(rt; ended.status.number(), 0);
    Ok(())
}
