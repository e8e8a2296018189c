//! Lines that are answered as their ends are read, however their source is cut into pieces.

use super::fixtures::{HEISENBERG, run_over, shelf_of, words_of};
use super::rows::ROWS;
use collect_text::Collector;
use nil_io::{MemorySink, MemorySource};
use pres_text::read;
use session_io::answer_source;
use std::alloc::{AllocError, Global};
use std::test::Fail;

/// The lines of all rows as one text, and their replies.
fn joined(alloc: Global) -> Result<(String, String), AllocError> {
    let mut queries = String::new(alloc);
    let mut replies = String::new(alloc);
    for (lines, output) in ROWS {
        queries.push_str(lines)?;
        queries.push_str("\n")?;
        replies.push_str(output)?;
    }
    Ok((queries, replies))
}

#[test]
fn pieces_of_any_size_get_the_same_replies(rt: HostRuntime) -> Result<(), Fail> {
    let alloc = rt.alloc();
    let words = words_of(alloc, &["run", "f"])?;
    let (queries, replies) = joined(alloc)?;
    for piece in [1, 2, 3, 7, 100_000] {
        let mut shelf = shelf_of(alloc, HEISENBERG.as_bytes(), &[])?;
        let bytes = queries.as_bytes().to_vec(alloc)?;
        let mut source = MemorySource::new(bytes, piece, Vec::new(alloc));
        let ended = run_over(alloc, &words, &mut shelf, &mut source, &[])?;
        assert_eq!(rt; ended.bytes.as_slice(), replies.as_bytes());
        assert_eq!(rt; ended.status.number(), 0);
    }
    Ok(())
}

#[test]
fn nothing_is_read_behind_a_reply_that_fails(rt: HostRuntime) -> Result<(), Fail> {
    let alloc = rt.alloc();
    let words = words_of(alloc, &["run", "f"])?;
    let mut shelf = shelf_of(alloc, HEISENBERG.as_bytes(), &[])?;
    let mut source = MemorySource::new(b"a1\na2\n".to_vec(alloc)?, 3, Vec::new(alloc));
    let ended = run_over(alloc, &words, &mut shelf, &mut source, &[1])?;
    assert!(rt; ended.bytes.is_empty());
    assert_eq!(rt; ended.status.number(), 7);
    assert_eq!(rt; source.left(), b"a2\n".as_slice());
    Ok(())
}

/// What the collector writes for two lines with a limit of bytes.
fn collected(alloc: Global, limit: u64) -> Result<Vec<u8>, Fail> {
    let pres = read(alloc, HEISENBERG.as_bytes())?;
    let mut collector = Collector::of(pres);
    let mut source = MemorySource::new(b"a2^3*a1^5\na1\n".to_vec(alloc)?, 4096, Vec::new(alloc));
    let mut sink = MemorySink::new(Vec::with_capacity(alloc, 64)?, Vec::new(alloc));
    let _end = answer_source(alloc, &mut collector, &mut source, limit, &mut sink);
    Ok(sink.bytes().to_vec(alloc)?)
}

#[test]
fn lines_that_end_within_the_limit_are_answered(rt: HostRuntime) -> Result<(), Fail> {
    let above = collected(rt.alloc(), 12)?;
    assert_eq!(rt; above.as_slice(), b"5 3 15\nlong input\n".as_slice());
    let within = collected(rt.alloc(), 13)?;
    assert_eq!(rt; within.as_slice(), b"5 3 15\n1 0 0\n".as_slice());
    Ok(())
}
