//! Rows of calls, one after another.

ghost use Rattle.std.specs.Prelude.{◌≡◌, length, IfOk};

use super::{Builder, NameFault, RelationFault, Syllable};
use std::alloc::Global;
use std::test::Fail;

fn three_names(alloc: Global) -> Result<Builder, Fail>
    ensures { IfOk result (λ b. length b.names ≡ 3) }
{
    let mut builder = Builder::new(alloc)?;
    builder.add_name("a1")?;
    builder.add_name("a2")?;
    builder.add_name("a3")?;
    Ok(builder)
}

#[test]
fn a_name_is_taken_once(rt: HostRuntime) -> Result<(), Fail> {
    let mut builder = three_names(rt.alloc())?;
    assert_eq!(rt; builder.index_of("a1"), Some(1));
    assert_eq!(rt; builder.index_of("a3"), Some(3));
    assert!(rt; matches!(builder.add_name("a1"), Err(NameFault::TwiceName)));
    Ok(())
}

#[test]
fn a_pair_is_taken_once(rt: HostRuntime) -> Result<(), Fail> {
    let mut builder = three_names(rt.alloc())?;
    let right = [Syllable { number: 3, exp: 1 }];
    builder.add_relation(2, 1, &right)?;
    assert!(rt;
        matches!(
            builder.add_relation(2, 1, &right),
            Err(RelationFault::Twice)
        )
    );
    assert!(rt;
        matches!(
            builder.add_relation(1, 2, &right),
            Err(RelationFault::Order)
        )
    );
    Ok(())
}

#[test]
fn a_copy_is_equal(rt: HostRuntime) -> Result<(), Fail> {
    let mut builder = three_names(rt.alloc())?;
    builder.add_relation(2, 1, &[Syllable { number: 3, exp: 1 }])?;
    let pres = builder.finish().ok_or("no name")?;
    let copy = pres.copy(rt.alloc())?;
    let same = copy.count() == pres.count() && copy.index_of("a2") == pres.index_of("a2");
    assert!(rt; same);
    Ok(())
}
