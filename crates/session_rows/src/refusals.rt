//! Statuses other than `Done`.

use super::fixtures::{Ended, HEISENBERG, run_over, shelf_of, source_of, words_of};
use std::alloc::{AllocError, Global};
use std::test::Fail;

/// The two queries over a shelf, a source and a sink whose calls with these numbers fail.
fn with_faults(
    alloc: Global,
    texts: &[&str],
    shelf_fails: &[u64],
    source_fails: &[u64],
    sink_fails: &[u64],
) -> Result<Ended, AllocError> {
    let words = words_of(alloc, texts)?;
    let mut shelf = shelf_of(alloc, HEISENBERG.as_bytes(), shelf_fails)?;
    let mut source = source_of(alloc, b"a2^3*a1^5\na1^5*a2^3", source_fails)?;
    run_over(alloc, &words, &mut shelf, &mut source, sink_fails)
}

#[test]
fn a_fault_of_the_sink_leaves_what_was_written(rt: HostRuntime) -> Result<(), Fail> {
    let ended = with_faults(rt.alloc(), &["run", "f"], &[], &[], &[2])?;
    assert_eq!(rt; ended.bytes.as_slice(), b"5 3 15\n".as_slice());
    assert_eq!(rt; ended.status.number(), 7);
    Ok(())
}

#[test]
fn a_fault_of_the_source_ends_whole_lines(rt: HostRuntime) -> Result<(), Fail> {
    let first = with_faults(rt.alloc(), &["run", "f"], &[], &[1], &[])?;
    assert_eq!(rt; first.bytes.as_slice(), b"read fault\n".as_slice());
    assert_eq!(rt; first.status.number(), 6);
    let second = with_faults(rt.alloc(), &["run", "f"], &[], &[2], &[])?;
    assert_eq!(rt; second.bytes.as_slice(), b"5 3 15\nread fault\n".as_slice());
    assert_eq!(rt; second.status.number(), 6);
    Ok(())
}

#[test]
fn a_fault_of_the_shelf_or_a_missing_file_is_a_read_fault(rt: HostRuntime) -> Result<(), Fail> {
    let fault = with_faults(rt.alloc(), &["run", "f"], &[1], &[], &[])?;
    assert_eq!(rt; fault.bytes.as_slice(), b"read fault\n".as_slice());
    assert_eq!(rt; fault.status.number(), 6);
    let missing = with_faults(rt.alloc(), &["run", "g"], &[], &[], &[])?;
    assert_eq!(rt; missing.bytes.as_slice(), b"read fault\n".as_slice());
    assert_eq!(rt; missing.status.number(), 6);
    Ok(())
}

#[test]
fn words_that_fit_no_form_are_refused(rt: HostRuntime) -> Result<(), Fail> {
    let ended = with_faults(rt.alloc(), &["run"], &[], &[], &[])?;
    assert_eq!(rt; ended.bytes.as_slice(), b"usage\n".as_slice());
    assert_eq!(rt; ended.status.number(), 2);
    Ok(())
}
