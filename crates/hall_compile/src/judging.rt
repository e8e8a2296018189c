//! What comes of a proposed table.

ghost use Rattle.std.specs.Prelude.{◌≡◌, IfOk};
ghost use Rattle.hall_compile.specs.Passing.{IsJudged};

use super::Memory;
use super::reason::Reason;
use hall_table::{Checked, Table};
use identity_check::{Verdict, check};
use nil_pres::Presentation;
use std::alloc::Global;

/// What comes of a proposed table: it multiplies in the presentation, or it isn't taken.
#[derive(Drop)]
pub enum Judged {
    Taken(Checked),
    Left(Reason),
}

/// Checks what a proposer gave for a level.
pub fn judge(
    alloc: Global,
    pres: &Presentation,
    i: u32,
    given: Option<Table>,
) -> Result<Judged, Memory>
    ensures { IfOk result (IsJudged pres.now i given) }
{
    let Some(table) = given else {
        return Ok(Judged::Left(Reason::NoTable));
    };
    if table.level() != i || table.last() != pres.count() {
        return Ok(Judged::Left(Reason::WrongLevel));
    }
    match check(alloc, pres, table)? {
        Verdict::Accepted(checked) => Ok(Judged::Taken(checked)),
        Verdict::Refused(failure) => Ok(Judged::Left(Reason::Refused(failure))),
        Verdict::Wide(identity) => Ok(Judged::Left(Reason::Wide(identity))),
    }
}
