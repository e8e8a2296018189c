//! Queries that are made up.

ghost use Rattle.std.specs.Prelude.{◌≡◌, ◌+◌, ◌<◌, ◌≤◌, ◌^◌, ◌++◌, length, string_bytes, IfOk, IfSome, IfNone, OnOk, IsErrOf, IsOkUnless};
ghost use Rattle.nil_examples.specs.Places.{places};
ghost use Rattle.nil_examples.specs.Draws.{later};
ghost use Rattle.nil_examples.specs.Loads.{syllable, word, line, queries, load_fault};

use super::draws::Draws;
use super::example::pairs;
use super::example_fault::ExampleFault;
use super::sizes::size_fault;
use std::alloc::{AllocError, Global};

/// Lines of queries to the group of the unitriangular matrices with `m` rows, one for each number
/// up to `count`, by the draws that begin with a seed. Sizes are tried from the left.
pub fn load_queries(alloc: Global, m: u64, count: u64, seed: u64) -> Result<String, ExampleFault>
    ensures refused { IfSome (load_fault m count seed) (λ fault. IsErrOf result fault) }
    ensures taken { IfNone (load_fault m count seed) (IsOkUnless result ExampleFault.Memory) }
    ensures ok { IfOk result (λ s. string_bytes s ≡ queries (length (places m)) seed count) }
{
    if let Some(fault) = load_fault(m, count, seed) {
        return Err(fault);
    }
    let rows = m as u32;
    let generators = u64::from(pairs(rows));
    let text = queries(alloc, generators, count, seed)?;
    Ok(text)
}

/// The fault of the first number that is out of range.
fn load_fault(m: u64, count: u64, seed: u64) -> Option<ExampleFault>
    ensures { result ≡ load_fault m count seed }
{
    if let Some(fault) = size_fault(2, 10, m) {
        return Some(fault);
    }
    if let Some(fault) = size_fault(1, 1_000_000, count) {
        return Some(fault);
    }
    size_fault(0, 2_147_483_647, seed)
}

/// The lines of all queries.
fn queries(alloc: Global, n: u64, count: u64, seed: u64) -> Result<String, AllocError>
    requires some { 1 ≤ n }
    requires few { count ≤ 1000000 }
    requires seed { seed < 2 ^ 31 }
    ensures { IfOk result (λ s. string_bytes s ≡ queries n seed count) }
{
    let mut text = String::new(alloc);
    let mut draws = Draws { state: seed };
    for k in 0..count {
        push_query(alloc, &mut text, n, k + 1, &mut draws)?;
    }
    Ok(text)
}

/// Appends the line of the next query.
fn push_query(
    alloc: Global,
    text: &mut String,
    n: u64,
    q: u64,
    draws: &mut Draws,
) -> Result<(), AllocError>
    requires { 1 ≤ n }
    ensures line { OnOk result (string_bytes text.new ≡ string_bytes text.old
        ++ line q (word n draws.old.state) (word n (later draws.old.state 4))) }
    ensures state { OnOk result (draws.new.state ≡ later (later draws.old.state 4) 4) }
{
    let u = word(alloc, n, draws)?;
    let v = word(alloc, n, draws)?;
    push_line(text, q, u.as_str(), v.as_str())
}

/// Appends the query with a number, of two words.
fn push_line(text: &mut String, q: u64, u: &str, v: &str) -> Result<(), AllocError>
    ensures { OnOk result (string_bytes text.new ≡ string_bytes text.old ++ line q u.now v.now) }
{
    match q % 4 {
        1 => write!(text, "({u})*({v})\n"),
        2 => {
            write!(text, "({u})*({v}) = ({v})*({u})*")?;
            write!(text, "[{u},{v}]\n")
        }
        3 => write!(text, "solve {u} | {v}\n"),
        _ => write!(text, "[{u},{v}]\n"),
    }
}

/// A word of two syllables.
fn word(alloc: Global, n: u64, draws: &mut Draws) -> Result<String, AllocError>
    requires { 1 ≤ n }
    ensures word { IfOk result (λ s. string_bytes s ≡ word n draws.old.state) }
    ensures state { OnOk result (draws.new.state ≡ later draws.old.state 4) }
{
    let mut word = String::new(alloc);
    push_syllable(&mut word, n, draws)?;
    word.push_str("*")?;
    push_syllable(&mut word, n, draws)?;
    Ok(word)
}

/// Appends a generator to a power.
fn push_syllable(text: &mut String, n: u64, draws: &mut Draws) -> Result<(), AllocError>
    requires { 1 ≤ n }
    ensures syllable { OnOk result (string_bytes text.new ≡ string_bytes text.old
        ++ syllable n draws.old.state) }
    ensures state { OnOk result (draws.new.state ≡ later draws.old.state 2) }
{
    let number = 1 + draws.draw() % n;
    let exponent = (draws.draw() % 9) as i64 - 4;
    write!(text, "a{number}^{exponent}")
}
