//! Words, shelves, sources and sinks for a session.

use nil_io::{MemoryShelf, MemorySink, MemorySource};
use query_session::{Status, Words, session};
use std::alloc::{AllocError, Global};

pub(crate) const HEISENBERG: &str = "nilpotent 1\ngenerators a1 a2 a3\n[a2,a1] = a3\n";

/// The text of `examples/free23.pres`.
pub(crate) const FREE: &str =
    "nilpotent 1\ngenerators a1 a2 a3 a4 a5\n[a2,a1] = a3\n[a3,a1] = a4\n[a3,a2] = a5\n";

/// The text of `examples/inconsistent.pres`.
pub(crate) const INCONSISTENT: &str =
    "nilpotent 1\ngenerators a1 a2 a3 a4 a5\n[a3,a2] = a4\n[a4,a1] = a5\n";

/// The text of `examples/heis.table`.
#[rattlefmt::skip]
pub(crate) const HEISENBERG_TABLE: &str = "{\"format\":\"hall table 1\",\"generators\":3,\"level\":1,\"polynomials\":[[[\"1\",\"x1\",1],[\"1\",\"y1\",1]],[[\"1\",\"x2\",1],[\"1\",\"y2\",1]],[[\"1\",\"x3\",1],[\"1\",\"y3\",1],[\"1\",\"x2\",1,\"y1\",1]]]}\n";

/// How a session ended, and what it wrote.
#[derive(Drop)]
pub(crate) struct Ended {
    pub status: Status,
    pub bytes: Vec<u8>,
}

pub(crate) fn words_of(alloc: Global, texts: &[&str]) -> Result<Words, AllocError> {
    let mut items = Vec::new(alloc);
    for text in texts {
        items.push(String::from_str(alloc, text)?)?;
    }
    Ok(Words { items })
}

/// A shelf with a file `f`, whose calls with these numbers fail.
pub(crate) fn shelf_of(
    alloc: Global,
    file: &[u8],
    fail: &[u64],
) -> Result<MemoryShelf, AllocError> {
    let name = String::from_str(alloc, "f")?;
    let mut files = Vec::new(alloc);
    files.push((name, file.to_vec(alloc)?))?;
    Ok(MemoryShelf::new(files, fail.to_vec(alloc)?))
}

/// A shelf with a presentation `f` and a table `t`, whose calls with these numbers fail.
pub(crate) fn shelf_of_both(
    alloc: Global,
    pres: &str,
    table: &str,
    fail: &[u64],
) -> Result<MemoryShelf, AllocError> {
    let mut files = Vec::new(alloc);
    for (name, text) in [("f", pres), ("t", table)] {
        files.push((
            String::from_str(alloc, name)?,
            text.as_bytes().to_vec(alloc)?,
        ))?;
    }
    Ok(MemoryShelf::new(files, fail.to_vec(alloc)?))
}

pub(crate) fn source_of(
    alloc: Global,
    queries: &[u8],
    fail: &[u64],
) -> Result<MemorySource, AllocError> {
    Ok(MemorySource::new(queries.to_vec(alloc)?, 4096, fail.to_vec(alloc)?))
}

/// A session that writes to a sink whose calls with these numbers fail.
pub(crate) fn run_over(
    alloc: Global,
    words: &Words,
    shelf: &mut MemoryShelf,
    source: &mut MemorySource,
    fail: &[u64],
) -> Result<Ended, AllocError> {
    let mut sink = MemorySink::new(Vec::with_capacity(alloc, 4096)?, fail.to_vec(alloc)?);
    let status = session(alloc, words, shelf, source, &mut sink, Vec::new(alloc));
    let bytes = sink.bytes().to_vec(alloc)?;
    Ok(Ended { status, bytes })
}

/// A session over a presentation, a table and queries, with no fault.
pub(crate) fn by_table(
    alloc: Global,
    pres: &str,
    table: &str,
    queries: &[u8],
) -> Result<Ended, AllocError> {
    let words = words_of(alloc, &["run", "f", "t"])?;
    let mut shelf = shelf_of_both(alloc, pres, table, &[])?;
    let mut source = source_of(alloc, queries, &[])?;
    run_over(alloc, &words, &mut shelf, &mut source, &[])
}

/// A session over a file and queries, with no fault.
pub(crate) fn answered(alloc: Global, file: &[u8], queries: &[u8]) -> Result<Ended, AllocError> {
    let words = words_of(alloc, &["run", "f"])?;
    let mut shelf = shelf_of(alloc, file, &[])?;
    let mut source = source_of(alloc, queries, &[])?;
    run_over(alloc, &words, &mut shelf, &mut source, &[])
}
