//! What compiles say, as texts.

use binom_poly::text;
use compile_text::{Memory, compiled_text, inconsistent_text, wide_text};
use hall_compile::{Outcome, compile};
use nil_pres::Presentation;
use nil_propose::Proposer;
use pres_text::read;
use std::alloc::Global;
use std::test::Fail;
use sum_compiler::power_table;
use table_json::write_table;

/// The text of an outcome.
fn outcome_text(alloc: Global, pres: &Presentation, outcome: &Outcome) -> Result<String, Memory> {
    match outcome {
        Outcome::Compiled(compiled) => compiled_text(alloc, compiled),
        Outcome::Inconsistent(overlap) => inconsistent_text(alloc, pres, overlap),
        Outcome::Wide(place) => wide_text(alloc, pres, place),
    }
}

/// What the compile of a file says.
pub(crate) fn said(
    alloc: Global,
    file: &str,
    proposers: Vec<Box<dyn Proposer>>,
) -> Result<String, Fail> {
    if proposers.len() > 64 {
        return Err("too many proposers")?;
    }
    let pres = read(alloc, file.as_bytes())?;
    let outcome = compile(alloc, &pres, proposers)?;
    Ok(outcome_text(alloc, &pres, &outcome)?)
}

/// The text of the table of a file, without a proposer.
pub(crate) fn summed_table(alloc: Global, file: &str) -> Result<String, Fail> {
    let pres = read(alloc, file.as_bytes())?;
    match compile(alloc, &pres, Vec::new(alloc))? {
        Outcome::Compiled(compiled) => Ok(write_table(alloc, compiled.checked.table())?),
        _ => Err("not compiled")?,
    }
}

/// The powers of the table of a file, without a proposer.
pub(crate) fn powers_text(alloc: Global, file: &str) -> Result<String, Fail> {
    let pres = read(alloc, file.as_bytes())?;
    let Outcome::Compiled(compiled) = compile(alloc, &pres, Vec::new(alloc))? else {
        return Err("not compiled")?;
    };
    let powers = power_table(alloc, &compiled.checked)?;
    let mut texts = String::new(alloc);
    for power in &powers {
        texts.push_str(text(alloc, power)?.as_str())?;
        texts.push_str("\n")?;
    }
    Ok(texts)
}

/// Whether the compile of a file answers want of memory.
pub(crate) fn wants_memory(
    alloc: Global,
    file: &str,
    proposers: Vec<Box<dyn Proposer>>,
) -> Result<bool, Fail> {
    if proposers.len() > 64 {
        return Err("too many proposers")?;
    }
    let pres = read(alloc, file.as_bytes())?;
    Ok(compile(alloc, &pres, proposers).is_err())
}
