//! The forms in memory at a concrete type, and the adapters over the outside.

use super::*;
use std::alloc::{AllocError, Global};
use std::test::Fail;
use std::{fs, io};

fn file(alloc: Global, name: &str, bytes: &[u8]) -> Result<(String, Vec<u8>), AllocError> {
    Ok((
        String::from_str(alloc, name)?,
        Vec::from_slice(alloc, bytes)?,
    ))
}

#[test]
fn memory_shelf_gives_its_bytes_or_long(rt: HostRuntime) -> Result<(), Fail> {
    let alloc = rt.alloc();
    let mut files = Vec::new(alloc);
    files.push(file(alloc, "a", b"12345")?)?;
    files.push(file(alloc, "a", b"6")?)?;
    let mut shelf = MemoryShelf::new(files, vec![in alloc; 4]?);
    assert_eq!(rt; shelf.read(alloc, "a", 5)?.as_slice(), b"12345".as_slice());
    assert_eq!(rt; shelf.read(alloc, "a", 4).err(), Some(ShelfFault::Long));
    assert_eq!(rt; shelf.read(alloc, "b", 4).err(), Some(ShelfFault::Failed));
    assert_eq!(rt; shelf.read(alloc, "a", 5).err(), Some(ShelfFault::Failed));
    Ok(())
}

#[test]
fn sure_shelf_gives_empty_contents_for_a_missing_name(rt: HostRuntime) -> Result<(), Fail> {
    let alloc = rt.alloc();
    let mut shelf = SureShelf::new(vec![in alloc; file(alloc, "a", b"12")?]?);
    assert_eq!(rt; shelf.read(alloc, "a", 2)?.as_slice(), b"12".as_slice());
    assert_eq!(rt; shelf.read(alloc, "a", 1).err(), Some(ShelfFault::Long));
    assert_eq!(rt; shelf.read(alloc, "b", 0)?.len(), 0);
    Ok(())
}

#[test]
fn sources_give_pieces_up_to_the_end(rt: HostRuntime) -> Result<(), Fail> {
    let alloc = rt.alloc();
    let mut buf = [0u8; 4];
    let mut failing = MemorySource::new(b"12345".to_vec(alloc)?, 3, vec![in alloc; 2]?);
    assert_eq!(rt; failing.read(&mut buf), Ok(3));
    assert_eq!(rt; failing.read(&mut buf), Err(Failed));
    assert_eq!(rt; failing.left(), b"45".as_slice());
    let mut sure = SureSource::new(b"12345".to_vec(alloc)?, 9);
    for count in [4, 1, 0] {
        assert_eq!(rt; sure.read(&mut buf), Ok(count));
    }
    assert_eq!(rt; buf.as_slice(), b"5234".as_slice());
    Ok(())
}

#[test]
fn memory_sink_takes_whole_pieces_within_its_room(rt: HostRuntime) -> Result<(), Fail> {
    let alloc = rt.alloc();
    let mut sink = MemorySink::new(Vec::with_capacity(alloc, 5)?, vec![in alloc; 2]?);
    assert_eq!(rt; sink.write(b"12"), Ok(2));
    assert_eq!(rt; sink.write(b"3"), Err(Failed));
    assert_eq!(rt; sink.write(b"4567"), Err(Failed));
    assert_eq!(rt; sink.write(b"345"), Ok(3));
    assert_eq!(rt; sink.bytes(), b"12345".as_slice());
    assert_eq!(rt; SureSink::new().write(b"123"), Ok(3));
    Ok(())
}

#[test]
fn file_shelf_reads_a_file_within_its_limit(rt: HostRuntime) -> Result<(), Fail> {
    let path = "/tmp/nil_io_file_shelf_reads_a_file";
    fs::write(&rt, path, "12345")?;
    let mut shelf = FileShelf::new(&rt);
    assert_eq!(rt;
        shelf.read(rt.alloc(), path, 5)?.as_slice(),
        b"12345".as_slice()
    );
    assert_eq!(rt;
        shelf.read(rt.alloc(), path, 4).err(),
        Some(ShelfFault::Long)
    );
    assert_eq!(rt;
        shelf.read(rt.alloc(), "/dev/zero", 9000).err(),
        Some(ShelfFault::Long)
    );
    fs::remove_file(&rt, path)?;
    assert_eq!(rt;
        shelf.read(rt.alloc(), path, 5).err(),
        Some(ShelfFault::Failed)
    );
    Ok(())
}

#[test]
fn standard_input_ends_and_standard_output_takes_a_piece(rt: HostRuntime) {
    let mut buf = [0u8; 4];
    let mut source = InputSource::new(rt.reader());
    assert_eq!(rt; source.read(&mut buf), Ok(0));
    let mut sink = OutputSink::new(io::writer(&rt));
    assert_eq!(rt; sink.write(b"written\n"), Ok(8));
}
