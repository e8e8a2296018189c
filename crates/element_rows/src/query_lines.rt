//! Lines, and what is written of what is read.

use nil_pres::{Builder, Presentation};
use nil_word::Vector;
use std::alloc::Global;
use std::test::Fail;
use word_text::{read_query, vector_text, write_query};

fn three_names(alloc: Global) -> Result<Presentation, Fail> {
    let mut builder = Builder::new(alloc)?;
    builder.add_name("a1")?;
    builder.add_name("a2")?;
    builder.add_name("a3")?;
    Ok(builder.finish().ok_or("no names")?)
}

/// What is written of what is read, or the fault.
fn answer(alloc: Global, line: &[u8]) -> Result<String, Fail> {
    let pres = three_names(alloc)?;
    match read_query(alloc, &pres, line) {
        Ok(query) => Ok(write_query(alloc, &pres, &query)?),
        Err(fault) => Ok(format!(in alloc; "{fault}")?),
    }
}

#[rattlefmt::skip]
const ANSWERS: [(&str, &str); 16] = [
    ("a1^-170141183460469231731687303715884105728", "number 4"),
    ("a1^-170141183460469231731687303715884105727", "a1^-170141183460469231731687303715884105727"),
    ("a2*(a1",                    "syntax 7"),
    ("a3",                        "a3"),
    ("a3^2^3",                    "syntax 5"),
    ("b7",                        "unknown 1"),
    ("quotient a1 | a2",          "quotient a1 | a2"),
    ("a1^a2",                     "a1^a2"),
    ("a1^( 1 )",                  "a1^(1)"),
    ("a1 % a2",                   "syntax 4"),
    ("a1*solve a2",               "syntax 4"),
    ("((a1*a2))*(a3)",            "(a1*a2)*a3"),
    ("(a1^2)^a2=[a2 , (a1)]",     "(a1^2)^a2 = [a2,a1]"),
    ("solve a2|a1^(a2^3)",        "solve a2 | a1^(a2^3)"),
    (" \t",                       ""),
    ("  # note",                  ""),
];

#[test]
fn lines_have_their_answers(rt: HostRuntime) -> Result<(), Fail> {
    for (line, want) in ANSWERS {
        assert_eq!(rt; answer(rt.alloc(), line.as_bytes())?.as_str(), want);
    }
    Ok(())
}

#[test]
fn the_bracket_that_is_too_deep_is_named(rt: HostRuntime) -> Result<(), Fail> {
    let line = vec![in rt.alloc(); b'('; 201]?;
    assert_eq!(rt; answer(rt.alloc(), &line)?.as_str(), "deep 201");
    Ok(())
}

#[test]
fn a_vector_is_its_entries(rt: HostRuntime) -> Result<(), Fail> {
    let unit = Vector::unit(rt.alloc(), 3, 2)?;
    assert_eq!(rt; vector_text(rt.alloc(), &unit)?.as_str(), "0 1 0");
    let copy = unit.copy(rt.alloc())?;
    assert_eq!(rt; vector_text(rt.alloc(), &copy)?.as_str(), "0 1 0");
    let zero = Vector::zero(rt.alloc(), 3)?;
    assert_eq!(rt; vector_text(rt.alloc(), &zero)?.as_str(), "0 0 0");
    Ok(())
}
