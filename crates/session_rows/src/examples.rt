//! The files of `examples/`, word for word, and a group of matrices.

use super::fixtures::{FREE, HEISENBERG, INCONSISTENT, answered};
use super::texts::MATRICES;
use std::test::Fail;

/// `examples/heis.queries`
const HEIS_QUERIES: &str = "# elements, and whether two are equal\n\
    a2^3*a1^5\n\
    a1^5*a2^3\n\
    a2*a1 = a1*a2\n\
    [a2,a1] = a3\n\
    \n# powers, conjugates and commutators\n\
    (a1*a2)^-1\n\
    (a1*a2)^10\n\
    a1^a2\n\
    a2^a1\n\
    [a2,a1]^0\n\
    \n# the x with a2 x = a1, and a1 a2^-1\n\
    solve a2 | a1\n\
    quotient a1 | a2\n\
    \n# a number past 128 bits, and lines with a fault\n\
    a2^85070591730234615865843651857942052864*a1^2\n\
    a1^-170141183460469231731687303715884105728\n\
    a2*(a1\n\
    b7\n";

/// `examples/heis.replies`
const HEIS_REPLIES: &str = "5 3 15\n\
    5 3 0\n\
    no\n\
    yes\n\
    -1 -1 1\n\
    10 10 45\n\
    1 0 -1\n\
    0 1 1\n\
    0 0 0\n\
    1 -1 -1\n\
    1 -1 0\n\
    wide\n\
    number 4\n\
    syntax 7\n\
    unknown 1\n";

/// `examples/free23.queries`
const FREE_QUERIES: &str = "# elements\n\
    a2^2*a1^3\n\
    (a1*a2)^3\n\
    (a2*a1)^10\n\
    \n# inverses, conjugates and commutators\n\
    (a1*a2)^-1\n\
    a1^a2\n\
    [a1^2*a2^3,a1^-1*a2^2]\n\
    \n# whether two words are the same element\n\
    a2*a1 = a1*a2*a3\n\
    a3*a1 = a1*a3\n\
    \n# the x with a2 x = a1, and a2^2 a1^-1\n\
    solve a2 | a1\n\
    quotient a2^2 | a1\n\
    \n# a number past 128 bits, and lines with a fault\n\
    a2^85070591730234615865843651857942052864*a1^2\n\
    a2*(a1\n\
    a6\n";

/// `examples/free23.replies`
const FREE_REPLIES: &str = "3 2 6 6 3\n\
    3 3 3 1 5\n\
    10 10 55 165 330\n\
    -1 -1 1 -1 -1\n\
    1 0 -1 0 0\n\
    0 0 -7 1 -23\n\
    yes\n\
    no\n\
    1 -1 -1 0 1\n\
    -1 2 -2 2 -1\n\
    wide\n\
    syntax 7\n\
    unknown 1\n";

#[rattlefmt::skip]
const EXAMPLES: [(&str, &str, &str); 4] = [
    (HEISENBERG,   HEIS_QUERIES, HEIS_REPLIES),
    (FREE,         FREE_QUERIES, FREE_REPLIES),
    (MATRICES,     "a3*a2*a1",   "1 1 1 -1 -1 0\n"),
    (INCONSISTENT, FREE_QUERIES, "inconsistent a3 a2 a1\n1 1 1 1 1\n1 1 1 1 0\n"),
];

#[test]
fn the_examples_have_their_replies(rt: HostRuntime) -> Result<(), Fail> {
    for (file, queries, output) in EXAMPLES {
        let ended = answered(rt.alloc(), file.as_bytes(), queries.as_bytes())?;
        assert_eq!(rt; ended.bytes.as_slice(), output.as_bytes(), "{file}");
    }
    Ok(())
}
