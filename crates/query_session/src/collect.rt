//! The command `collect PRES`.

ghost use Rattle.std.specs.Prelude.{◌≡◌, ℕ, List, IfOk, IfErr};
ghost use Rattle.nil_pres.specs.Presented.{Presented};
ghost use Rattle.nil_io.specs.Causes.{Rose};
ghost use Rattle.query_session.specs.Shown.{asked_of, fed_of};
ghost use Rattle.query_session.specs.Opening.{HasOpened, HasRefusal};
ghost use Rattle.query_session.specs.Presentations.{IsFileRefused};
ghost use Rattle.query_session.specs.Collect.{IsPresentation, IsCollectOf};

use super::answering::answer_by;
use super::presentations::read_presentation;
use super::refusal::Refusal;
use super::status::Status;
use collect_text::Collector;
use collect_text::laws::collected_replies;
use nil_io::{Shelf, Sink, Source};
use std::alloc::Global;

/// Answers the query lines over a presentation by the collector.
pub(crate) fn collect<H: Shelf, S: Source, K: Sink>(
    alloc: Global,
    pres: &str,
    shelf: &mut H,
    queries: &mut S,
    limit: u64,
    out: &mut K,
) -> Status
    ensures run { (words : List (List ℕ)) → IsCollectOf pres.now limit
        (asked_of words H.contents H.faults H.longs shelf.old shelf.new)
        (fed_of S.left S.faults S.given queries.old queries.new)
        result (K.written out.old) (K.written out.new) }
    ensures cause { result ≡ Status.WriteFault → Rose (K.faults out.old) (K.faults out.new) }
{
    collected_replies();
    let opened = open(alloc, pres, shelf);
    answer_by(alloc, opened, queries, limit, out)
}

/// The collector of a presentation, or what refuses it.
fn open<H: Shelf>(alloc: Global, pres: &str, shelf: &mut H) -> Result<Collector, Refusal>
    ensures opened { (words : List (List ℕ)) → IfOk result (HasOpened Presented
        (IsPresentation pres.now)
        (asked_of words H.contents H.faults H.longs shelf.old shelf.new)) }
    ensures refused { (words : List (List ℕ)) → IfErr result (HasRefusal
        (IsFileRefused pres.now)
        (asked_of words H.contents H.faults H.longs shelf.old shelf.new)) }
{
    let presentation = read_presentation(alloc, pres, shelf)?;
    Ok(Collector::of(presentation))
}
