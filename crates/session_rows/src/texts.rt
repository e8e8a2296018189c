//! Commands that write one text, and a source that they leave as it is.

use super::fixtures::{
    Ended, FREE, HEISENBERG, HEISENBERG_TABLE, run_over, shelf_of, source_of, words_of,
};
use super::tables::FREE_TABLE;
use std::alloc::{AllocError, Global};
use std::test::Fail;

/// A session over a file `f`, and a source that fails where it is read.
fn over(alloc: Global, file: &str, texts: &[&str]) -> Result<Ended, AllocError> {
    let words = words_of(alloc, texts)?;
    let mut shelf = shelf_of(alloc, file.as_bytes(), &[])?;
    let mut source = source_of(alloc, b"a1", &[1])?;
    run_over(alloc, &words, &mut shelf, &mut source, &[])
}

fn written(alloc: Global, texts: &[&str]) -> Result<Ended, AllocError> {
    over(alloc, HEISENBERG, texts)
}

fn over_free(alloc: Global, texts: &[&str]) -> Result<Ended, AllocError> {
    over(alloc, FREE, texts)
}

/// The group of unitriangular matrices with four rows.
pub(crate) const MATRICES: &str = "nilpotent 1\ngenerators a1 a2 a3 a4 a5 a6\n[a2,a1] = a4^-1\n\
    [a3,a2] = a5^-1\n[a4,a3] = a6\n[a5,a1] = a6^-1\n";

/// Words, what a session writes, and the number of its status.
#[rattlefmt::skip]
const ROWS: [([&str; 3], &str, u8); 6] = [
    (["example", "unitri", "4"],   MATRICES,      0),
    (["example", "free2", "002"],  HEISENBERG,    0),
    (["example", "unitri", "11"],  "size 11\n",   11),
    (["example", "unitri", "x"],   "usage\n",     2),
    (["example", "matrix", "4"],   "usage\n",     2),
    (["example", "free2", "0000000000000000002"], "usage\n", 2),
];

#[test]
fn an_example_is_written_or_its_size_refused(rt: HostRuntime) -> Result<(), Fail> {
    for (texts, output, number) in ROWS {
        let ended = written(rt.alloc(), &texts)?;
        assert_eq!(rt; ended.bytes.as_slice(), output.as_bytes(), "{output}");
        assert_eq!(rt; ended.status.number(), number, "{output}");
    }
    Ok(())
}

#[test]
fn a_check_says_where_each_table_comes_from(rt: HostRuntime) -> Result<(), Fail> {
    let ended = written(rt.alloc(), &["check", "f"])?;
    let lines = b"consistent\nlevel 3 base\nlevel 2 sum\nlevel 1 sum\n".as_slice();
    assert_eq!(rt; ended.bytes.as_slice(), lines);
    assert_eq!(rt; ended.status.number(), 0);
    Ok(())
}

#[test]
fn a_compile_writes_its_table(rt: HostRuntime) -> Result<(), Fail> {
    let ended = written(rt.alloc(), &["compile", "f"])?;
    assert_eq!(rt; ended.bytes.as_slice(), HEISENBERG_TABLE.as_bytes());
    assert_eq!(rt; ended.status.number(), 0);
    let ended = over_free(rt.alloc(), &["compile", "f"])?;
    let table = format!(in rt.alloc(); "{FREE_TABLE}\n")?;
    assert_eq!(rt; ended.bytes.as_slice(), table.as_bytes());
    Ok(())
}

/// The lines of the least trees of the last generator of a free group of class three.
const TREES: &str = "x5.1\ny5.1\n(x3.1,y2.1;5.1)\n((x2.1,y1.1;3.1),x2.2;5.1)\n\
    ((x2.1,y1.1;3.1),y2.1;5.1)\nf5 = x5 + y5 + x3*y2 + C(x2,2)*y1 + x2*y1*y2\n";

#[test]
fn the_trees_of_a_generator_are_listed(rt: HostRuntime) -> Result<(), Fail> {
    let alloc = rt.alloc();
    let ended = over_free(alloc, &["trees", "f", "a5"])?;
    assert_eq!(rt; ended.bytes.as_slice(), TREES.as_bytes());
    assert_eq!(rt; ended.status.number(), 0);
    let ended = written(alloc, &["trees", "f", "b"])?;
    assert_eq!(rt; ended.bytes.as_slice(), b"usage\n".as_slice());
    assert_eq!(rt; ended.status.number(), 2);
    Ok(())
}

/// Words, what a session writes, and the number of its status.
#[rattlefmt::skip]
const LOADS: [([&str; 4], &str, u8); 5] = [
    (["load", "2", "1", "1"],  "queries 1 vectors 1 yes 0 no 0 wide 0 sum 999999997\n", 0),
    (["load", "6", "20000", "1"],
        "queries 20000 vectors 15000 yes 5000 no 0 wide 0 sum 999992939\n", 0),
    (["load", "11", "0", "1"], "size 11\n",         11),
    (["load", "2", "0", "1"],  "size 0\n",          11),
    (["load", "2", "1", "-1"], "usage\n",           2),
];

#[test]
fn a_load_is_counted(rt: HostRuntime) -> Result<(), Fail> {
    for (texts, output, number) in LOADS {
        let ended = written(rt.alloc(), &texts)?;
        assert_eq!(rt; ended.bytes.as_slice(), output.as_bytes(), "{output}");
        assert_eq!(rt; ended.status.number(), number, "{output}");
    }
    Ok(())
}
