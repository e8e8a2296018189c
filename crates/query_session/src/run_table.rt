//! The command `run PRES TABLE`.

ghost use Rattle.std.specs.Prelude.{◌≡◌, ◌⊎◌, ℕ, List, [], IfOk, IfErr};
ghost use Rattle.nil_word.specs.Congruence.{IsConsistent};
ghost use Rattle.nil_pres.specs.Relations.{relations_of};
ghost use Rattle.hall_table.specs.Multiplies.{Paired};
ghost use Rattle.nil_io.specs.Causes.{Rose};
ghost use Rattle.query_session.specs.Shown.{asked_of, fed_of};
ghost use Rattle.query_session.specs.Opening.{HasOpened, HasRefused, HasRefusal};
ghost use Rattle.query_session.specs.Memos.{IsMemoOver};
ghost use Rattle.query_session.specs.RunTable.{IsAccepted, IsOpened, IsRefused, IsRunTableOf, IsTableRefused};

use super::laws::consistent;
use super::limits::TABLE_LIMIT;
use super::presentations::read_presentation;
use super::refusal::Refusal;
use super::remembering::answer_from_memo;
use super::status::Status;
use super::table_refusal::TableRefusal;
use identity_check::{Verdict, check};
use nil_io::{Shelf, Sink, Source};
use nil_pres::Presentation;
use query_replies::Calculator;
use query_replies::laws::right_replies;
use reply_memo::Answers;
use std::alloc::Global;
use table_json::read_table;

/// Answers the query lines over a presentation by the table of a file, which is checked.
pub(crate) fn run_table<H: Shelf, S: Source, K: Sink>(
    alloc: Global,
    pres: &str,
    table: &str,
    shelf: &mut H,
    queries: &mut S,
    limit: u64,
    memo: &mut Answers,
    out: &mut K,
) -> Status
    requires empty { memo.old ≡ [] }
    ensures run { (words : List (List ℕ)) → IsRunTableOf pres.now table.now limit
        (asked_of words H.contents H.faults H.longs shelf.old shelf.new)
        (fed_of S.left S.faults S.given queries.old queries.new)
        result (K.written out.old) (K.written out.new) }
    ensures memo { (words : List (List ℕ)) → IsMemoOver (IsOpened pres.now table.now) limit
        (asked_of words H.contents H.faults H.longs shelf.old shelf.new)
        (fed_of S.left S.faults S.given queries.old queries.new) memo.new }
    ensures cause { result ≡ Status.WriteFault → Rose (K.faults out.old) (K.faults out.new) }
{
    right_replies();
    let opened = open(alloc, pres, table, shelf);
    answer_from_memo(alloc, opened, queries, limit, memo, out)
}

/// The calculator of a presentation and a table, or what refuses them.
fn open<H: Shelf>(
    alloc: Global,
    pres: &str,
    table: &str,
    shelf: &mut H,
) -> Result<Calculator, Refusal>
    ensures opened { (words : List (List ℕ)) → IfOk result
        (HasOpened Paired (IsOpened pres.now table.now)
        (asked_of words H.contents H.faults H.longs shelf.old shelf.new)) }
    ensures refused { (words : List (List ℕ)) → IfErr result
        (HasRefusal (IsRefused pres.now table.now)
        (asked_of words H.contents H.faults H.longs shelf.old shelf.new)) }
{
    let calculator = calculator_of(alloc, pres, table, shelf)?;
    Ok(calculator)
}

/// The calculator of a presentation and a table, or the status that refuses them.
fn calculator_of<H: Shelf>(
    alloc: Global,
    pres: &str,
    table: &str,
    shelf: &mut H,
) -> Result<Calculator, Status>
    ensures opened { (words : List (List ℕ)) → IfOk result
        (HasOpened Paired (IsOpened pres.now table.now)
        (asked_of words H.contents H.faults H.longs shelf.old shelf.new)) }
    ensures refused { (words : List (List ℕ)) → IfErr result
        (HasRefused (IsRefused pres.now table.now)
        (asked_of words H.contents H.faults H.longs shelf.old shelf.new)) }
{
    let pres = read_presentation(alloc, pres, shelf)?;
    let text = shelf.read(alloc, table, TABLE_LIMIT)?;
    by_table(alloc, &pres, &text)
}

/// The calculator of a presentation and a table's text, where the table is accepted.
fn by_table(alloc: Global, pres: &Presentation, text: &[u8]) -> Result<Calculator, Status>
    ensures pres { IfOk result (λ c. c.pres ≡ pres.now) }
    ensures accepted { IfOk result (λ c. IsAccepted pres.now text.now c.table) }
    ensures consistent { IfOk result (λ _. IsConsistent (relations_of pres.now) 1) }
    ensures refused { IfErr result (λ s. (s ≡ Status.Memory) ⊎ IsTableRefused pres.now text.now s) }
{
    consistent();
    let table = read_table(alloc, text, pres.count())?;
    match check(alloc, pres, table)? {
        Verdict::Accepted(checked) => {
            let calculator = Calculator::of(alloc, checked)?;
            Ok(calculator)
        }
        Verdict::Refused(failure) => Err(Status::TableRefused(TableRefusal::Identity(failure))),
        Verdict::Wide(identity) => Err(Status::TableRefused(TableRefusal::Wide(identity))),
    }
}
