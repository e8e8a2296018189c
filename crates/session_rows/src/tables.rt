//! Table files: sessions over those that are accepted, and refusals of the others.

use super::fixtures::{
    FREE, HEISENBERG, HEISENBERG_TABLE, INCONSISTENT, by_table, run_over, shelf_of, source_of,
    words_of,
};
use std::alloc::{AllocError, Global};
use std::test::Fail;

/// The last terms of a table of the Heisenberg group, and what a session with the query
/// `a2^3*a1^5` writes.
#[rattlefmt::skip]
const LAST_TERMS: [(&str, &str); 7] = [
    (r#"["1","x2",1,"y1",1]"#,  "5 3 15\n"),
    (r#"["1","x1",1,"y2",1]"#,  "table refused up 2 3 at x1=1 left 1 right 0\n"),
    (r#"["-1","x2",1,"y1",1]"#, "table refused relation 1 2 3 at none left -1 right 1\n"),
    (r#"["1","x1",1,"y1",2],["1","x1",1,"y1",3]"#,
        "table refused step-up 1 3 at x1=1 y1=1 left 1 right 0\n"),
    (r#"["01","x2",1,"y1",1]"#, "table number\n"),
    (r#"["1","x1",1]"#,         "table order\n"),
    (r#"["1","x3",1,"y1",1]"#,  "table shape 3\n"),
];

/// The table of the Heisenberg group with these last terms.
pub(crate) fn with_last(alloc: Global, terms: &str) -> Result<String, AllocError> {
    let mut text = String::from_str(
        alloc,
        r#"{"format":"hall table 1","generators":3,"level":1,"polynomials":[[["1","x1",1],["1","y1",1]],[["1","x2",1],["1","y2",1]],[["1","x3",1],["1","y3",1],"#,
    )?;
    text.push_str(terms)?;
    text.push_str("]]}\n")?;
    Ok(text)
}

#[test]
fn a_table_answers_where_it_is_accepted(rt: HostRuntime) -> Result<(), Fail> {
    for (terms, output) in LAST_TERMS {
        let table = with_last(rt.alloc(), terms)?;
        let ended = by_table(rt.alloc(), HEISENBERG, table.as_str(), b"a2^3*a1^5")?;
        assert_eq!(rt; ended.bytes.as_slice(), output.as_bytes(), "{terms}");
        let number = if output.starts_with("table") { 9 } else { 0 };
        assert_eq!(rt; ended.status.number(), number, "{terms}");
    }
    Ok(())
}

/// The table of the free group of class three.
pub(crate) const FREE_TABLE: &str =
    r#"{"format":"hall table 1","generators":5,"level":1,"polynomials":[[["1","x1",1],["1","y1",1]],[["1","x2",1],["1","y2",1]],[["1","x3",1],["1","y3",1],["1","x2",1,"y1",1]],[["1","x4",1],["1","y4",1],["1","x3",1,"y1",1],["1","x2",1,"y1",2]],[["1","x5",1],["1","y5",1],["1","x3",1,"y2",1],["1","x2",2,"y1",1],["1","x2",1,"y1",1,"y2",1]]]}"#;

/// Two generators that commute, and a table for which a number overflows.
pub(crate) const PLANE: &str = "nilpotent 1\ngenerators a1 a2\n";

pub(crate) const PLANE_TABLE: &str =
    r#"{"format":"hall table 1","generators":2,"level":1,"polynomials":[[["1","x1",1],["1","y1",1]],[["1","x2",1],["1","y2",1],["170141183460469231731687303715884105727","x1",1,"y1",2],["170141183460469231731687303715884105727","x1",1,"y1",3]]]}"#;

/// Presentations and tables, and what a session with the query `a2^2*a1^3` writes.
#[rattlefmt::skip]
const ROWS: [(&str, &str, &str); 7] = [
    (FREE,         FREE_TABLE,             "3 2 6 6 3\n"),
    (PLANE,        PLANE_TABLE,            "table wide down 1 2\n"),
    (INCONSISTENT, FREE_TABLE,             "table refused relation 1 2 3 at none left 1 right 0\n"),
    (PLANE,        HEISENBERG_TABLE,       "table field generators\n"),
    (HEISENBERG,   "{\"format\":\"hall table 1\",\"generators\":3,\"level\":2}", "table field level\n"),
    (HEISENBERG,   "{\"format\":\"hall table 1\",\"generators\"", "table json\n"),
    ("nilpotent",  "{",                    "file 1 header\n"),
];

#[test]
fn the_first_fault_of_both_files_is_named(rt: HostRuntime) -> Result<(), Fail> {
    for (pres, table, output) in ROWS {
        let ended = by_table(rt.alloc(), pres, table, b"a2^2*a1^3")?;
        assert_eq!(rt; ended.bytes.as_slice(), output.as_bytes(), "{output}");
    }
    Ok(())
}

#[test]
fn a_table_that_cannot_be_read_is_a_read_fault(rt: HostRuntime) -> Result<(), Fail> {
    let words = words_of(rt.alloc(), &["run", "f", "t"])?;
    let mut shelf = shelf_of(rt.alloc(), HEISENBERG.as_bytes(), &[])?;
    let mut source = source_of(rt.alloc(), b"a1", &[])?;
    let missing = run_over(rt.alloc(), &words, &mut shelf, &mut source, &[])?;
    assert_eq!(rt; missing.bytes.as_slice(), b"read fault\n".as_slice());
    assert_eq!(rt; missing.status.number(), 6);
    Ok(())
}
