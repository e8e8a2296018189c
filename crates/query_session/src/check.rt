//! The command `check PRES`.

ghost use Rattle.std.specs.Prelude.{◌≡◌, ◌≤◌, ℕ, List, Option, length, map, string_bytes, IfOk, IfErr};
ghost use Rattle.hall_compile.specs.Proposals.{proposal};
ghost use Rattle.nil_io.specs.Causes.{Rose};
ghost use Rattle.session_io.specs.Asked.{fed};
ghost use Rattle.query_session.specs.Shown.{asked_of};
ghost use Rattle.query_session.specs.Opening.{HasOpened, HasRefusal};
ghost use Rattle.query_session.specs.Compiling.{IsRefused};
ghost use Rattle.query_session.specs.Check.{IsVerdict, IsCheckOf};

use super::compiling::compiled_of;
use super::refusal::Refusal;
use super::status::Status;
use super::writing::write_by;
use compile_text::compiled_text;
use nil_io::{Shelf, Sink};
use nil_propose::Proposer;
use std::alloc::Global;

/// Writes whether a presentation is consistent, and where the table of each level comes from.
pub(crate) fn check<H: Shelf, K: Sink>(
    alloc: Global,
    pres: &str,
    shelf: &mut H,
    out: &mut K,
    proposers: Vec<Box<dyn Proposer>>,
) -> Status
    requires few { length proposers.items ≤ 64 }
    ensures run { (limit : ℕ) (words : List (List ℕ)) (left : Option (List ℕ)) (faults given : ℕ)
        → IsCheckOf (λ p i. map (λ b. proposal (named b) (gives b p i)) proposers.items) pres.now limit
        (asked_of words H.contents H.faults H.longs shelf.old shelf.new)
        (fed left left faults faults given given)
        result (K.written out.old) (K.written out.new) }
    ensures cause { result ≡ Status.WriteFault → Rose (K.faults out.old) (K.faults out.new) }
{
    let verdict = verdict(alloc, pres, shelf, proposers);
    write_by(alloc, verdict, out)
}

/// The lines of what the compile of a presentation says, or what refuses it.
fn verdict<H: Shelf>(
    alloc: Global,
    pres: &str,
    shelf: &mut H,
    proposers: Vec<Box<dyn Proposer>>,
) -> Result<String, Refusal>
    requires few { length proposers.items ≤ 64 }
    ensures opened { (words : List (List ℕ)) → IfOk result (λ text. HasOpened (List ℕ)
        (IsVerdict (λ p i. map (λ b. proposal (named b) (gives b p i)) proposers.items) pres.now)
        (asked_of words H.contents H.faults H.longs shelf.old shelf.new)
        (string_bytes text)) }
    ensures refused { (words : List (List ℕ)) → IfErr result (HasRefusal
        (IsRefused (λ p i. map (λ b. proposal (named b) (gives b p i)) proposers.items) pres.now)
        (asked_of words H.contents H.faults H.longs shelf.old shelf.new)) }
{
    let compiled = compiled_of(alloc, pres, shelf, proposers)?;
    let text = compiled_text(alloc, &compiled)?;
    Ok(text)
}
