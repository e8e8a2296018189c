//! The lines of a source.

ghost use Rattle.std.specs.Prelude.{◌≡◌, ℕ, [], IsErrOf};
ghost use Rattle.nil_io.specs.Causes.{Rose};
ghost use Rattle.session_io.specs.Asked.{fed};
ghost use Rattle.session_io.specs.Answers.{by_reply, IsAnswered};
ghost use Rattle.session_io.specs.Recalling.{IsRecalled};

use super::answering::answer_last;
use super::end::End;
use super::held_line::HeldLine;
use super::pieces::answer_pieces;
use super::replier::Replier;
use super::stop::Stop;
use nil_io::{Sink, Source};
use std::alloc::Global;

/// Reads the lines of a source, up to its end, a fault or a limit of bytes, and answers each of them
/// as soon as its end was read.
pub fn answer_source<T: Replier, S: Source, K: Sink>(
    alloc: Global,
    replier: &mut T,
    queries: &mut S,
    limit: u64,
    out: &mut K,
) -> Result<End, Stop>
    ensures answered { IsAnswered (by_reply (T.reply replier.old)) limit
        (fed (S.left queries.old) (S.left queries.new) (S.faults queries.old) (S.faults queries.new)
        (S.given queries.old) (S.given queries.new))
        result (K.written out.old) (K.written out.new) }
    ensures recalls { T.recalls replier.old [] → IsRecalled (T.recalls replier.new) limit
        (fed (S.left queries.old) (S.left queries.new) (S.faults queries.old) (S.faults queries.new)
        (S.given queries.old) (S.given queries.new)) }
    ensures same { T.reply replier.new ≡ T.reply replier.old }
    ensures cause { IsErrOf result Stop.Failed → Rose (K.faults out.old) (K.faults out.new) }
{
    let mut line = HeldLine::reserve(alloc)?;
    let end = answer_pieces(alloc, replier, queries, limit, &mut line, out)?;
    answer_last(alloc, replier, &line, end, out)?;
    Ok(end)
}
