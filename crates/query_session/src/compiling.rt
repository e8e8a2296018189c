//! The compile of a command.

ghost use Rattle.std.specs.Prelude.{◌≡◌, ◌⊎◌, ◌≤◌, ℕ, List, length, map, IfOk, IfErr};
ghost use Rattle.hall_compile.specs.declared.compiled.Compiled.{Compiled};
ghost use Rattle.hall_compile.specs.Proposals.{proposal};
ghost use Rattle.query_session.specs.Shown.{asked_of};
ghost use Rattle.query_session.specs.Compiling.{IsCompiledBy, IsCompiledOf, IsUncompiled, IsRefused};
ghost use Rattle.query_session.specs.Opening.{HasOpened, HasRefusal};
ghost use Rattle.query_session.specs.Refusals.{Says};

use super::presentations::read_presentation;
use super::refusal::Refusal;
use super::status::Status;
use compile_text::{inconsistent_text, wide_text};
use hall_compile::{Compiled, Outcome, compile};
use nil_io::Shelf;
use nil_pres::Presentation;
use nil_propose::Proposer;
use std::alloc::Global;

/// The presentation of a file, compiled, or what refuses it.
pub(crate) fn compiled_of<H: Shelf>(
    alloc: Global,
    pres: &str,
    shelf: &mut H,
    proposers: Vec<Box<dyn Proposer>>,
) -> Result<Compiled, Refusal>
    requires few { length proposers.items ≤ 64 }
    ensures opened { (words : List (List ℕ)) → IfOk result (HasOpened Compiled
        (IsCompiledOf (λ p i. map (λ b. proposal (named b) (gives b p i)) proposers.items) pres.now)
        (asked_of words H.contents H.faults H.longs shelf.old shelf.new)) }
    ensures refused { (words : List (List ℕ)) → IfErr result (HasRefusal
        (IsRefused (λ p i. map (λ b. proposal (named b) (gives b p i)) proposers.items) pres.now)
        (asked_of words H.contents H.faults H.longs shelf.old shelf.new)) }
{
    let pres = read_presentation(alloc, pres, shelf)?;
    compiled(alloc, &pres, proposers)
}

/// A presentation, compiled, or how its compile ends otherwise.
pub(crate) fn compiled(
    alloc: Global,
    pres: &Presentation,
    proposers: Vec<Box<dyn Proposer>>,
) -> Result<Compiled, Refusal>
    requires few { length proposers.items ≤ 64 }
    ensures compiled { IfOk result (IsCompiledBy
        (λ i. map (λ b. proposal (named b) (gives b pres.now i)) proposers.items) pres.now) }
    ensures refused { IfErr result (λ r. (r.status ≡ Status.Memory)
        ⊎ (IsUncompiled (λ i. map (λ b. proposal (named b) (gives b pres.now i)) proposers.items)
        pres.now r.status × Says pres.now.names r)) }
{
    match compile(alloc, pres, proposers)? {
        Outcome::Compiled(compiled) => {
            let _level = compiled.checked.table().level();
            Ok(compiled)
        }
        Outcome::Inconsistent(overlap) => {
            let text = inconsistent_text(alloc, pres, &overlap)?;
            Err(Refusal {
                status: Status::Inconsistent(overlap),
                text: Some(text),
            })
        }
        Outcome::Wide(place) => {
            let text = wide_text(alloc, pres, &place)?;
            Err(Refusal {
                status: Status::Wide(place),
                text: Some(text),
            })
        }
    }
}
