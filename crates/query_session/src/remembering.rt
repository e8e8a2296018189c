//! Sessions that answer lines, those that were asked before from a memo.

ghost use Rattle.std.specs.Prelude.{◌≡◌, ◌⊎◌, [], IfOk, IfErr};
ghost use Rattle.nil_io.specs.Causes.{Rose};
ghost use Rattle.reply_memo.specs.Kept.{AllKept};
ghost use Rattle.session_io.specs.Answers.{by_reply};
ghost use Rattle.session_io.specs.Recalling.{IsRecalled};
ghost use Rattle.query_replies.specs.Memoized.{IsKept};
ghost use Rattle.query_replies.specs.Replies.{reply};
ghost use Rattle.query_session.specs.Shown.{fed_of};
ghost use Rattle.query_session.specs.Ends.{EndsAs, RefusesWith};

use super::refusal::Refusal;
use super::refusing::{refuse, status_of};
use super::status::Status;
use nil_io::{Sink, Source};
use query_replies::{Calculator, MemoizedCalculator};
use reply_memo::Answers;
use session_io::answer_source;
use std::alloc::Global;
use std::mem::replace;

/// Answers the lines of a source by a calculator with a memo, which comes to hold the replies that
/// were asked last; or writes what refuses it.
pub(crate) fn answer_from_memo<S: Source, K: Sink>(
    alloc: Global,
    opened: Result<Calculator, Refusal>,
    queries: &mut S,
    limit: u64,
    memo: &mut Answers,
    out: &mut K,
) -> Status
    requires empty { memo.old ≡ [] }
    ensures ended { EndsAs reply opened limit
        (fed_of S.left S.faults S.given queries.old queries.new)
        result (K.written out.old) (K.written out.new) }
    ensures cause { result ≡ Status.WriteFault
        → RefusesWith opened Status.WriteFault ⊎ Rose (K.faults out.old) (K.faults out.new) }
    ensures kept { IfOk opened (λ c. IsRecalled
        (λ lines. AllKept (IsKept (by_reply (reply c)) lines) memo.new) limit
        (fed_of S.left S.faults S.given queries.old queries.new)) }
    ensures unused { IfErr opened (λ _. memo.new ≡ []) }
{
    match opened {
        Ok(calculator) => {
            let Ok(spare) = Answers::new(alloc) else {
                return Status::Memory;
            };
            let mut replier = MemoizedCalculator::new(calculator, replace(memo, spare));
            let outcome = answer_source(alloc, &mut replier, queries, limit, out);
            *memo = replier.into_answers();
            status_of(outcome)
        }
        Err(refusal) => refuse(alloc, out, refusal),
    }
}
