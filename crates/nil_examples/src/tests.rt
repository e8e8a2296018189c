//! Worked rows, and calls with ample memory.

use super::{ExampleFault, free_class_two, load_queries, unitriangular};
use nil_pres::{Presentation, Syllable};
use std::test::Fail;

/// Whether the commutator of a generator with an earlier one is a power of a generator.
fn is_power(pres: &Presentation, j: u32, i: u32, number: u32, exp: i64) -> bool {
    1 <= i
        && i < j
        && j <= pres.count()
        && pres.right_side(j, i) == [Syllable { number, exp }].as_slice()
}

/// Whether a generator commutes with an earlier one.
fn commute(pres: &Presentation, j: u32, i: u32) -> bool {
    1 <= i && i < j && j <= pres.count() && pres.right_side(j, i).is_empty()
}

#[test]
fn matrices_with_four_rows(rt: HostRuntime) -> Result<(), Fail> {
    let pres = unitriangular(rt.alloc(), 4)?;
    assert_eq!(rt; pres.count(), 6);
    assert_eq!(rt; pres.index_of("a6"), Some(6));
    assert!(rt; is_power(&pres, 2, 1, 4, -1));
    assert!(rt; is_power(&pres, 3, 2, 5, -1));
    assert!(rt; is_power(&pres, 4, 3, 6, 1));
    assert!(rt; is_power(&pres, 5, 1, 6, -1));
    assert!(rt; commute(&pres, 3, 1) && commute(&pres, 5, 4) && commute(&pres, 6, 5));
    Ok(())
}

#[test]
fn two_free_generators_give_the_heisenberg_group(rt: HostRuntime) -> Result<(), Fail> {
    let pres = free_class_two(rt.alloc(), 2)?;
    assert_eq!(rt; pres.count(), 3);
    assert!(rt; is_power(&pres, 2, 1, 3, 1));
    assert!(rt; commute(&pres, 3, 1) && commute(&pres, 3, 2));
    Ok(())
}

#[test]
fn the_largest_examples(rt: HostRuntime) -> Result<(), Fail> {
    assert_eq!(rt; unitriangular(rt.alloc(), 10)?.count(), 45);
    assert_eq!(rt; free_class_two(rt.alloc(), 9)?.count(), 45);
    Ok(())
}

#[test]
fn the_first_size_out_of_range_is_named(rt: HostRuntime) {
    let alloc = rt.alloc();
    assert!(rt; matches!(unitriangular(alloc, 11), Err(ExampleFault::Size(11))));
    assert!(rt; matches!(free_class_two(alloc, 0), Err(ExampleFault::Size(0))));
    assert!(rt; matches!(load_queries(alloc, 1, 0, 0), Err(ExampleFault::Size(1))));
    let late = load_queries(alloc, 2, 1_000_001, 2_147_483_648);
    assert!(rt; matches!(late, Err(ExampleFault::Size(1_000_001))));
}

#[test]
fn one_query(rt: HostRuntime) -> Result<(), Fail> {
    let text = load_queries(rt.alloc(), 2, 1, 1)?;
    assert_eq!(rt; text.as_str(), "(a1^3*a1^-3)*(a1^-2*a1^-1)\n");
    Ok(())
}

#[test]
fn four_queries(rt: HostRuntime) -> Result<(), Fail> {
    let text = load_queries(rt.alloc(), 3, 4, 7)?;
    assert_eq!(rt;
        text.as_str(),
        "(a2^1*a3^-1)*(a3^4*a1^-2)\n\
         (a3^1*a3^-3)*(a3^4*a3^3) = (a3^4*a3^3)*(a3^1*a3^-3)*[a3^1*a3^-3,a3^4*a3^3]\n\
         solve a2^-2*a2^4 | a1^4*a1^-1\n\
         [a2^4*a2^-1,a3^4*a3^0]\n"
    );
    Ok(())
}
