//! Files, lines and queries about their limits.

use super::fixtures::{HEISENBERG, answered};
use query_session::Status;
use std::alloc::{AllocError, Global};
use std::test::Fail;

/// The file of the Heisenberg group and a comment, so many bytes long.
fn file_of(alloc: Global, length: usize) -> Result<Vec<u8>, AllocError> {
    let mut file = HEISENBERG.as_bytes().to_vec(alloc)?;
    file.resize(length, b'#')?;
    Ok(file)
}

const FILES: [(usize, &str, u8); 2] = [(4194304, "1 0 0\n", 0), (4194305, "long input\n", 10)];

#[test]
fn a_file_of_the_limit_is_read_and_a_longer_one_is_long_input(rt: HostRuntime) -> Result<(), Fail> {
    for (length, output, number) in FILES {
        let file = file_of(rt.alloc(), length)?;
        let ended = answered(rt.alloc(), &file, b"a1")?;
        assert_eq!(rt; ended.bytes.as_slice(), output.as_bytes());
        assert_eq!(rt; ended.status.number(), number);
    }
    Ok(())
}

#[test]
fn a_line_above_the_limit_is_long(rt: HostRuntime) -> Result<(), Fail> {
    let mut line = vec![in rt.alloc(); b'a'; 65536]?;
    let within = answered(rt.alloc(), HEISENBERG.as_bytes(), &line)?;
    assert_eq!(rt; within.bytes.as_slice(), b"unknown 1\n".as_slice());
    line.extend_from_slice(b"a\na1")?;
    let above = answered(rt.alloc(), HEISENBERG.as_bytes(), &line)?;
    assert_eq!(rt; above.bytes.as_slice(), b"long\n1 0 0\n".as_slice());
    assert_eq!(rt; above.status.number(), 0);
    Ok(())
}

#[test]
fn each_status_has_its_number(rt: HostRuntime) {
    assert_eq!(rt; Status::Done.number(), 0);
    assert_eq!(rt; Status::LongInput.number(), 10);
}
