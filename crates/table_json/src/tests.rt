//! Texts and what they are read as.

use super::{TableFault, read_table, write_table};
use std::alloc::Global;
use std::test::Fail;

#[rattlefmt::skip]
const HEIS: &str = r#"{"format":"hall table 1","generators":3,"level":1,"polynomials":[[["1","x1",1],["1","y1",1]],[["1","x2",1],["1","y2",1]],[["1","x3",1],["1","y3",1],["1","x2",1,"y1",1]]]}"#;

/// The first terms of a table of two generators, and how it is read.
#[rattlefmt::skip]
const TERMS: [(&str, &str); 32] = [
    (r#"["1","x1",1],["1","y1",1]"#, "read"),
    (r#" [ "1" , "\u0078\u0031" , 1 ] , ["1","y1",1] "#, "read"),
    // not as said
    (r#"1"#, "table field polynomials"),
    (r#"[]"#, "table field polynomials"),
    (r#"[1]"#, "table field polynomials"),
    (r#"["1","x1"]"#, "table field polynomials"),
    (r#"["1","x1",1.0]"#, "table field polynomials"),
    (r#"["1","x1",1e0]"#, "table field polynomials"),
    (r#"["1","x1",-0]"#, "table field polynomials"),
    (r#"["1","x1",0]"#, "table field polynomials"),
    (r#"["1","x1",1001]"#, "table field polynomials"),
    (r#"["1","x3",1]"#, "table field polynomials"),
    (r#"["1","x01",1]"#, "table field polynomials"),
    (r#"["1","z1",1]"#, "table field polynomials"),
    (r#"["01","x9",1]"#, "table field polynomials"),
    // coefficients
    (r#"["","x1",1]"#, "table number"),
    (r#"["01","x1",1]"#, "table number"),
    (r#"["+1","x1",1]"#, "table number"),
    (r#"["0","x1",1]"#, "table number"),
    (r#"["-0","x1",1]"#, "table number"),
    (r#"["1.0","x1",1]"#, "table number"),
    (r#"["170141183460469231731687303715884105728","x1",1]"#, "table number"),
    (r#"["-170141183460469231731687303715884105728","x1",1]"#, "table number"),
    (r#"["01","y1",1,"x1",1]"#, "table number"),
    (r#"["01","x1",1],["1","x9",1]"#, "table number"),
    // order
    (r#"["1","x1",1,"x1",1]"#, "table order"),
    (r#"["1","y1",1],["1","x1",1]"#, "table order"),
    (r#"["1","x1",1],["1","x1",1]"#, "table order"),
    // shape
    (r#""#, "table shape 1"),
    (r#"["1","x1",1],["1","x2",1],["1","y1",1]"#, "table shape 1"),
    (r#"["170141183460469231731687303715884105727","x1",1],["1","y1",1]"#, "table shape 1"),
    (r#"["1","x1",1],["1","y1",1],["-1","x1",1000]"#, "table shape 1"),
];

/// Whole texts for two generators.
#[rattlefmt::skip]
const WHOLE: [(&str, &str); 13] = [
    ("\u{feff}{}", "table json"),
    (r#"{"format":"hall table 1"}}"#, "table json"),
    (r#"["format","hall table 1"]"#, "table field format"),
    (r#"{"level":2,"generators":3,"format":1}"#, "table field format"),
    (r#"{"level":2,"generators":3,"format":"hall table 1"}"#, "table field generators"),
    (r#"{"format":"hall table 1","generators":2.0}"#, "table field generators"),
    (r#"{"format":"hall table 1","generators":2,"level":2}"#, "table field level"),
    (r#"{"format":"hall table 1","generators":2,"level":1e0}"#, "table field level"),
    (r#"{"format":"hall table 1","generators":2,"level":1}"#, "table field polynomials"),
    (r#"{"format":"hall table 1","generators":2,"level":1,"polynomials":[[]]}"#, "table field polynomials"),
    (r#"{"format":"hall table 1","generators":2,"level":1,"polynomials":[[],1]}"#, "table field polynomials"),
    // another order, another key, and a key that comes twice
    (r#"{"a":[{"b":null}],"polynomials":[[["1","x1",1],["1","y1",1]],[["1","x2",1],["1","y2",1]]],"level":2,"level":1,"generators":2,"format":"hall table 1"}"#, "read"),
    (r#"{"polynomials":[[["1","x1",1],["1","y1",1]],[["1","x2",1]]],"level":1,"generators":2,"format":"hall table 1"}"#, "table shape 2"),
];

/// How a text for two generators is read.
fn outcome(alloc: Global, text: &str) -> Result<String, Fail> {
    match read_table(alloc, text.as_bytes(), 2) {
        Ok(_) => Ok(String::from_str(alloc, "read")?),
        Err(fault) => Ok(format!(in alloc; "{fault}")?),
    }
}

/// The text with these terms in the first of two polynomials.
fn with_terms(alloc: Global, terms: &str) -> Result<String, Fail> {
    let mut text = String::from_str(
        alloc,
        "{\"format\":\"hall table 1\",\"generators\":2,\"level\":1,\"polynomials\":[[",
    )?;
    text.push_str(terms)?;
    text.push_str("],[[\"1\",\"x2\",1],[\"1\",\"y2\",1]]]}")?;
    Ok(text)
}

#[test]
fn texts_are_read_or_their_first_fault_is_named(rt: HostRuntime) -> Result<(), Fail> {
    let alloc = rt.alloc();
    for (terms, wanted) in TERMS {
        let text = with_terms(alloc, terms)?;
        let found = outcome(alloc, text.as_str())?;
        assert_eq!(rt; found.as_str(), wanted);
    }
    for (text, wanted) in WHOLE {
        let found = outcome(alloc, text)?;
        assert_eq!(rt; found.as_str(), wanted);
    }
    Ok(())
}

#[test]
fn what_is_read_is_written_as_the_same_text(rt: HostRuntime) -> Result<(), Fail> {
    let table = read_table(rt.alloc(), HEIS.as_bytes(), 3)?;
    let text = write_table(rt.alloc(), &table)?;
    assert_eq!(rt; text.as_str(), HEIS);
    Ok(())
}

#[test]
fn a_text_that_is_cut_is_no_json(rt: HostRuntime) -> Result<(), Fail> {
    let bytes = HEIS.as_bytes();
    for len in 0..bytes.len() {
        let cut = read_table(rt.alloc(), &bytes[..len], 3);
        assert!(rt; matches!(cut, Err(TableFault::Json)));
    }
    Ok(())
}
