//! Sessions that answer lines.

ghost use Rattle.std.specs.Prelude.{◌≡◌, ◌⊎◌};
ghost use Rattle.nil_io.specs.Causes.{Rose};
ghost use Rattle.query_session.specs.Shown.{fed_of};
ghost use Rattle.query_session.specs.Ends.{EndsAs, RefusesWith};

use super::refusal::Refusal;
use super::refusing::{refuse, status_of};
use super::status::Status;
use nil_io::{Sink, Source};
use session_io::{Replier, answer_source};
use std::alloc::Global;

/// Answers the lines of a source by what was opened, or writes what refuses it.
pub(crate) fn answer_by<T: Replier + Drop, S: Source, K: Sink>(
    alloc: Global,
    opened: Result<T, Refusal>,
    queries: &mut S,
    limit: u64,
    out: &mut K,
) -> Status
    ensures ended { EndsAs T.reply opened limit
        (fed_of S.left S.faults S.given queries.old queries.new)
        result (K.written out.old) (K.written out.new) }
    ensures cause { result ≡ Status.WriteFault
        → RefusesWith opened Status.WriteFault ⊎ Rose (K.faults out.old) (K.faults out.new) }
{
    match opened {
        Ok(mut replier) => { status_of(answer_source(alloc, &mut replier, queries, limit, out)) }
        Err(refusal) => refuse(alloc, out, refusal),
    }
}
