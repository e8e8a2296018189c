//! What is done for a command.

ghost use Rattle.std.specs.Prelude.{◌≡◌, ◌≤◌, ℕ, List, [], length, map, option_map};
ghost use Rattle.hall_compile.specs.Proposals.{proposal};
ghost use Rattle.nil_io.specs.Causes.{Rose};
ghost use Rattle.query_session.specs.Shown.{asked_of, fed_of};
ghost use Rattle.query_session.specs.Commands.{seen, IsSessionOf};
ghost use Rattle.query_session.specs.Memos.{IsMemoOf};

use super::check::check;
use super::collect::collect;
use super::command::Command;
use super::compile::compile;
use super::example::example;
use super::load::load;
use super::refusal::Refusal;
use super::refusing::refuse;
use super::run::run;
use super::run_table::run_table;
use super::status::Status;
use super::trees::trees;
use super::usage_kind::UsageKind;
use nil_io::{Shelf, Sink, Source};
use nil_propose::Proposer;
use reply_memo::Answers;
use std::alloc::Global;

/// Does what a command asks for, or refuses words that fit none.
pub(crate) fn perform<H: Shelf, S: Source, K: Sink>(
    alloc: Global,
    command: Option<Command<'_>>,
    shelf: &mut H,
    queries: &mut S,
    out: &mut K,
    proposers: Vec<Box<dyn Proposer>>,
    limit: u64,
    memo: &mut Answers,
) -> Status
    requires few { length proposers.items ≤ 64 }
    requires empty { memo.old ≡ [] }
    ensures run { (words : List (List ℕ)) → IsSessionOf
        (λ p i. map (λ b. proposal (named b) (gives b p i)) proposers.items)
        (option_map seen command.entry) limit
        (asked_of words H.contents H.faults H.longs shelf.old shelf.new)
        (fed_of S.left S.faults S.given queries.old queries.new)
        result (K.written out.old) (K.written out.new) }
    ensures memo { (words : List (List ℕ)) → IsMemoOf
        (λ p i. map (λ b. proposal (named b) (gives b p i)) proposers.items)
        (option_map seen command.entry) limit
        (asked_of words H.contents H.faults H.longs shelf.old shelf.new)
        (fed_of S.left S.faults S.given queries.old queries.new) memo.new }
    ensures cause { result ≡ Status.WriteFault → Rose (K.faults out.old) (K.faults out.new) }
{
    match command {
        Some(Command::Run { pres }) => {
            run(alloc, pres, shelf, queries, limit, memo, out, proposers)
        }
        Some(Command::RunTable { pres, table }) => {
            run_table(alloc, pres, table, shelf, queries, limit, memo, out)
        }
        Some(Command::Check { pres }) => check(alloc, pres, shelf, out, proposers),
        Some(Command::Compile { pres }) => compile(alloc, pres, shelf, out, proposers),
        Some(Command::Trees { pres, name }) => trees(alloc, pres, name, shelf, out),
        Some(Command::Collect { pres }) => collect(alloc, pres, shelf, queries, limit, out),
        Some(Command::Example { kind, size }) => example(alloc, kind, size, out),
        Some(Command::Load { rows, count, seed }) => {
            load(alloc, rows, count, seed, out, proposers)
        }
        None => refuse(
            alloc,
            out,
            Refusal {
                status: Status::Usage(UsageKind::Words),
                text: None,
            },
        ),
    }
}
