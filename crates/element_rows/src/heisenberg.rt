//! The Heisenberg group.

ghost use Rattle.std.specs.Prelude.{◌≡◌, length, IfOk};

use super::compiling::compiled;
use hall_table::Checked;
use nil_pres::{Builder, Presentation, Syllable};
use nil_word::Vector;
use std::alloc::Global;
use std::test::Fail;

/// Three generators with `[a2,a1] = a3`.
fn presentation(alloc: Global) -> Result<Presentation, Fail>
    ensures { IfOk result (λ p. length p.names ≡ 3) }
{
    let mut builder = Builder::new(alloc)?;
    builder.add_name("a1")?;
    builder.add_name("a2")?;
    builder.add_name("a3")?;
    builder.add_relation(2, 1, &[Syllable { number: 3, exp: 1 }])?;
    Ok(builder.finish().ok_or("no name")?)
}

/// The group with its table.
pub(crate) fn heisenberg(alloc: Global) -> Result<Checked, Fail>
    ensures names { IfOk result (λ c. length c.pres.names ≡ 3) }
    ensures level { IfOk result (λ c. c.table.level ≡ 1) }
{
    compiled(alloc, &presentation(alloc)?)
}

pub(crate) fn vector(alloc: Global, entries: [i64; 3]) -> Result<Vector, Fail>
    ensures { IfOk result (λ v. length v ≡ 3) }
{
    let mut vector = Vector::zero(alloc, 3)?;
    vector.set(1, i128::from(entries[0]));
    vector.set(2, i128::from(entries[1]));
    vector.set(3, i128::from(entries[2]));
    Ok(vector)
}
