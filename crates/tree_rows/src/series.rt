//! A group of power series under composition: the generator `a_k` is `x + x^(k+1)`, and terms from
//! `x^10` on are left out. So each pair has a right side, with exponents of both signs.

use dt_letters::Letters;
use dt_trees::least_trees;
use pres_text::read;
use std::alloc::{AllocError, Global};
use std::test::Fail;

const SERIES: &str = "nilpotent 1
generators a1 a2 a3 a4 a5 a6 a7 a8
[a2,a1] = a3^-1*a4^1*a5^5*a6^-21*a7^41*a8^-114
[a3,a1] = a4^-2*a5^4*a6^-8*a7^26*a8^-69
[a3,a2] = a5^-1*a8^9
[a4,a1] = a5^-3*a6^8*a7^-21*a8^55
[a4,a2] = a6^-2*a8^4
[a4,a3] = a7^-1
[a5,a1] = a6^-4*a7^13*a8^-40
[a5,a2] = a7^-3
[a5,a3] = a8^-2
[a6,a1] = a7^-5*a8^19
[a6,a2] = a8^-4
[a7,a1] = a8^-6
";

/// How many least trees there are.
fn count_all(alloc: Global, letters: &mut Letters) -> Result<usize, AllocError> {
    let mut count: usize = 0;
    for k in 1..9 {
        if k <= letters.pres().count() {
            let trees = least_trees(alloc, letters, 1, k)?;
            count = count.saturating_add(trees.len());
        }
    }
    Ok(count)
}

#[test]
fn the_trees_of_power_series_are_counted(rt: HostRuntime) -> Result<(), Fail> {
    let alloc = rt.alloc();
    let mut letters = Letters::new(alloc, &read(alloc, SERIES.as_bytes())?)?;
    assert_eq!(rt; count_all(alloc, &mut letters)?, 282);
    Ok(())
}
