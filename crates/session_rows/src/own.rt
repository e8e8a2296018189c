//! A shelf and sources of the tests' own, and the infallible implementations.

ghost use Rattle.std.specs.Prelude.{ℕ, List, None};
ghost use Rattle.std.specs.declared.option.Option.{Option};

use super::fixtures::{HEISENBERG, source_of, words_of};
use collect_text::Collector;
use nil_io::{Failed, MemorySink, Shelf, ShelfFault, Source, SureShelf, SureSink, SureSource};
use pres_text::read;
use query_session::session;
use session_io::answer_source;
use std::alloc::Global;
use std::test::Fail;

/// A shelf that finds no memory for any file. It tells nothing.
#[derive(Drop)]
struct Forgetful {
    asked: u64,
}

impl Shelf for Forgetful {
    ghost contents = { λ _ _. None };

    ghost faults = { λ _ _. 0 };

    ghost longs = { λ _ _ _. 0 };

    fn read(&mut self, _alloc: Global, _name: &str, _limit: u64) -> Result<Vec<u8>, ShelfFault> {
        self.asked = self.asked.saturating_add(1);
        Err(ShelfFault::Memory)
    }
}

#[test]
fn a_shelf_without_memory_ends_the_session(rt: HostRuntime) -> Result<(), Fail> {
    let words = words_of(rt.alloc(), &["run", "f"])?;
    let mut shelf = Forgetful { asked: 0 };
    let mut source = source_of(rt.alloc(), b"a1", &[])?;
    let room = Vec::with_capacity(rt.alloc(), 64)?;
    let mut sink = MemorySink::new(room, Vec::new(rt.alloc()));
    let status = session(
        rt.alloc(),
        &words,
        &mut shelf,
        &mut source,
        &mut sink,
        Vec::new(rt.alloc()),
    );
    assert_eq!(rt; status.number(), 8);
    assert!(rt; sink.bytes().is_empty());
    Ok(())
}

/// A source that gives the line `a3`, and then the letter `a` for ever. It tells nothing.
#[derive(Drop)]
struct Endless {
    given: u64,
}

impl Source for Endless {
    ghost left = { λ _. None };

    ghost faults = { λ _. 0 };

    ghost given = { λ s. s.given };

    fn read(&mut self, buf: &mut [u8]) -> Result<usize, Failed> {
        buf.fill(b'a');
        if self.given == 0 && buf.len() >= 3 {
            buf[1] = b'3';
            buf[2] = b'\n';
        }
        self.given = self.given.saturating_add(buf.len() as u64);
        Ok(buf.len())
    }
}

/// A source of so many letters `a`. It tells nothing.
#[derive(Drop)]
struct Letters {
    left: u64,
    given: u64,
}

impl Source for Letters {
    ghost left = { λ _. None };

    ghost faults = { λ _. 0 };

    ghost given = { λ s. s.given };

    fn read(&mut self, buf: &mut [u8]) -> Result<usize, Failed> {
        let count = self.left.min(buf.len() as u64) as usize;
        buf[..count].fill(b'a');
        self.left -= count as u64;
        self.given = self.given.saturating_add(count as u64);
        Ok(count)
    }
}

/// What the collector writes for the lines of a source, up to the limit.
fn over<S: Source>(alloc: Global, source: &mut S) -> Result<Vec<u8>, Fail> {
    let mut collector = Collector::of(read(alloc, HEISENBERG.as_bytes())?);
    let room = Vec::with_capacity(alloc, 64)?;
    let mut sink = MemorySink::new(room, Vec::new(alloc));
    let _end = answer_source(alloc, &mut collector, source, LIMIT, &mut sink);
    Ok(sink.bytes().to_vec(alloc)?)
}

/// A limit of bytes for the tests, above that of a line.
const LIMIT: u64 = 70_000;

const COUNTS: [(u64, &str); 2] = [(LIMIT, "long\n"), (70_001, "long input\n")];

#[test]
fn queries_of_the_limit_are_answered_and_more_are_long_input(rt: HostRuntime) -> Result<(), Fail> {
    for (left, output) in COUNTS {
        let mut source = Letters { left, given: 0 };
        let written = over(rt.alloc(), &mut source)?;
        assert_eq!(rt; written.as_slice(), output.as_bytes());
        assert!(rt; source.given <= LIMIT + 4096);
    }
    Ok(())
}

#[test]
fn a_source_without_an_end_is_long_input(rt: HostRuntime) -> Result<(), Fail> {
    let mut source = Endless { given: 0 };
    let written = over(rt.alloc(), &mut source)?;
    assert_eq!(rt; written.as_slice(), b"0 0 1\nlong input\n".as_slice());
    Ok(())
}

#[test]
fn a_session_over_infallible_implementations_is_done(rt: HostRuntime) -> Result<(), Fail> {
    let alloc = rt.alloc();
    let words = words_of(alloc, &["run", "f"])?;
    let mut files = Vec::new(alloc);
    files.push((
        String::from_str(alloc, "f")?,
        HEISENBERG.as_bytes().to_vec(alloc)?,
    ))?;
    let mut shelf = SureShelf::new(files);
    let mut source = SureSource::new(b"a1\na2*(a1".to_vec(alloc)?, 3);
    let mut sink = SureSink::new();
    let status = session(
        alloc,
        &words,
        &mut shelf,
        &mut source,
        &mut sink,
        Vec::new(alloc),
    );
    assert_eq!(rt; status.number(), 0);
    Ok(())
}
