//! Presentations with their tables.

ghost use Rattle.std.specs.Prelude.{◌≡◌, IfOk};

use hall_compile::{Compiled, Outcome, compile};
use hall_table::Checked;
use nil_pres::Presentation;
use std::alloc::Global;
use std::test::Fail;

/// A presentation that is compiled without a proposer, with its table.
pub(crate) fn compiled(alloc: Global, pres: &Presentation) -> Result<Checked, Fail>
    ensures pres { IfOk result (λ c. c.pres ≡ pres.now) }
    ensures level { IfOk result (λ c. c.table.level ≡ 1) }
{
    match compile(alloc, pres, Vec::new(alloc))? {
        Outcome::Compiled(
            Compiled {
                checked,
                by: _by,
                asked: _asked,
            },
        ) => Ok(checked),
        _ => Err("not compiled")?,
    }
}
