//! Numbers of terms of products and substitutions, to be timed by hand. Only the numbers are
//! printed; no time is measured here.
#![tactic(auto)]

mod building;
mod multiplication;
mod substitution;

use anyhow::{Result, bail};
use binom_poly::PolyFault;
use multiplication::multiply;
use std::env;
use std::fmt::Display;
use substitution::put_three;

fn main(rt: HostRuntime) -> Result<()> {
    let alloc = rt.alloc();
    let words: Vec<String> = env::args(&rt)?.skip(1).collect(alloc)?;
    match words.first() {
        None => {
            print(&rt, multiply(alloc, 2, 2, 1))?;
            print(&rt, put_three(alloc, 1, 1))
        }
        Some(word) => match word.as_str() {
            "mul" => print(&rt, multiply(alloc, 20, 3, 1)),
            "mul_apart" => print(&rt, multiply(alloc, 20, 3, 21)),
            "substitute" => print(&rt, put_three(alloc, 4, 9)),
            _ => bail!("mul, mul_apart, substitute, or no word"),
        },
    }
}

/// Prints the counts, or `wide` where a limit is passed.
fn print<C: Display + Drop>(rt: &impl Print, counts: Result<C, PolyFault>) -> Result<()> {
    match counts {
        Ok(counts) => println!(rt; "{counts}")?,
        Err(PolyFault::Wide) => println!(rt; "wide")?,
        Err(PolyFault::Memory) => bail!("want of memory"),
    }
    Ok(())
}
