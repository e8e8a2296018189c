//! The top call within a limit of query bytes, with a lent memo.

ghost use Rattle.std.specs.Prelude.{◌≡◌, ◌⊎◌, ◌+◌, ◌≤◌, ℕ, List, [], length, map};
ghost use Rattle.nil_pres.specs.Presented.{Presented};
ghost use Rattle.hall_compile.specs.Proposals.{proposal};
ghost use Rattle.nil_io.specs.Causes.{Rose};
ghost use Rattle.session_io.specs.Asked.{texts};
ghost use Rattle.session_io.specs.Taking.{piece};
ghost use Rattle.query_session.specs.Shown.{asked_of, fed_of};
ghost use Rattle.query_session.specs.Limits.{query_limit};
ghost use Rattle.query_replies.specs.EqualReplies.{EqualRepliesMeanEqualWords};
ghost use Rattle.query_session.specs.Commands.{IsSession};
ghost use Rattle.query_session.specs.Memos.{IsMemoAfter};
ghost use Rattle.query_session.specs.Smooth.{IsSmooth};

use super::command::command_of;
use super::laws::complete_runs;
use super::performing::perform;
use super::status::Status;
use super::words::Words;
use nil_io::{Shelf, Sink, Source};
use nil_propose::Proposer;
use query_replies::laws::equal_replies;
use reply_memo::Answers;
use std::alloc::Global;

/// Does all that the program does, with another limit of query bytes and a lent memo. The two forms
/// of `run` answer a line that was asked before from the memo, which then holds the replies to the
/// lines that were asked last; every other command leaves it empty.
pub fn session_within<H: Shelf, S: Source, K: Sink>(
    alloc: Global,
    words: &Words,
    shelf: &mut H,
    queries: &mut S,
    out: &mut K,
    proposers: Vec<Box<dyn Proposer>>,
    limit: u64,
    memo: &mut Answers,
) -> Status
    requires few { length proposers.items ≤ 64 }
    requires within { limit ≤ query_limit }
    requires empty { memo.old ≡ [] }
    ensures run { IsSession
        (λ p i. map (λ b. proposal (named b) (gives b p i)) proposers.items) limit
        (asked_of (texts words.now.items) H.contents H.faults H.longs shelf.old shelf.new)
        (fed_of S.left S.faults S.given queries.old queries.new)
        result (K.written out.old) (K.written out.new) }
    // Two lines that ask for elements, neither of them wide, get equal replies exactly if the
    // relations make their words equal.
    ensures equal { EqualRepliesMeanEqualWords }
    // With known files and known queries within their limits, which nothing refuses, a presentation
    // that compiles, and no fault, the session ends well.
    ensures complete { (p : Presented)
        → IsSmooth (λ p i. map (λ b. proposal (named b) (gives b p i)) proposers.items) limit
        (asked_of (texts words.now.items) H.contents H.faults H.longs shelf.old shelf.new)
        (fed_of S.left S.faults S.given queries.old queries.new) p
        → (Rose (K.faults out.old) (K.faults out.new) → ⊥)
        → (result ≡ Status.Done) ⊎ (result ≡ Status.Memory) }
    ensures bound { S.given queries.new ≤ S.given queries.old + (limit + piece) }
    ensures memo { IsMemoAfter
        (λ p i. map (λ b. proposal (named b) (gives b p i)) proposers.items) limit
        (asked_of (texts words.now.items) H.contents H.faults H.longs shelf.old shelf.new)
        (fed_of S.left S.faults S.given queries.old queries.new) memo.new }
    ensures write_fault { result ≡ Status.WriteFault → Rose (K.faults out.old) (K.faults out.new) }
{
    complete_runs();
    equal_replies();
    let command = command_of(words);
    perform(alloc, command, shelf, queries, out, proposers, limit, memo)
}
