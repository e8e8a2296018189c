//! The command `load M COUNT SEED`.

ghost use Rattle.std.specs.Prelude.{◌≡◌, ◌⊎◌, ◌≤◌, ℕ, List, Option, length, map, string_bytes, IfOk, IfErr};
ghost use Rattle.nil_pres.specs.Presented.{IsPresented};
ghost use Rattle.hall_table.specs.Tabled.{IsTabled};
ghost use Rattle.hall_table.specs.Multiplies.{IsChecked};
ghost use Rattle.nil_examples.specs.Places.{unitriangular};
ghost use Rattle.nil_examples.specs.Loads.{load_fault};
ghost use Rattle.hall_compile.specs.declared.compiled.Compiled.{Compiled};
ghost use Rattle.hall_compile.specs.Proposals.{proposal};
ghost use Rattle.load_tally.specs.declared.counts.Tally.{Tally};
ghost use Rattle.load_tally.specs.Tallies.{IsTally, tally_text};
ghost use Rattle.nil_io.specs.Causes.{Rose};
ghost use Rattle.session_io.specs.Asked.{Asked, fed};
ghost use Rattle.session_io.specs.Lines.{as_line, whole_lines};
ghost use Rattle.query_session.specs.Opening.{HasOpened, HasRefusal};
ghost use Rattle.query_session.specs.Refusals.{Says};
ghost use Rattle.query_session.specs.Compiling.{IsCompiledBy, IsUncompiled};
ghost use Rattle.query_session.specs.Load.{IsLoaded, IsRefused, IsLoadOf};

use super::compiling::compiled;
use super::refusal::Refusal;
use super::status::Status;
use super::writing::write_by;
use hall_compile::Compiled;
use load_tally::tally;
use nil_examples::{load_queries, unitriangular};
use nil_io::Sink;
use nil_pres::Presentation;
use nil_propose::Proposer;
use query_replies::Calculator;
use std::alloc::{AllocError, Global};

/// Compiles the group of unitriangular matrices, answers the lines of a load over it, and writes the
/// counts of the replies.
pub(crate) fn load<K: Sink>(
    alloc: Global,
    rows: u64,
    count: u64,
    seed: u64,
    out: &mut K,
    proposers: Vec<Box<dyn Proposer>>,
) -> Status
    requires few { length proposers.items ≤ 64 }
    ensures run { (limit : ℕ) (a : Asked) (left : Option (List ℕ)) (faults given : ℕ) → IsLoadOf
        (λ p i. map (λ b. proposal (named b) (gives b p i)) proposers.items) rows count seed
        limit a (fed left left faults faults given given)
        result (K.written out.old) (K.written out.new) }
    ensures cause { result ≡ Status.WriteFault → Rose (K.faults out.old) (K.faults out.new) }
{
    let text = text_of(alloc, rows, count, seed, proposers);
    write_by(alloc, text, out)
}

/// The line of the counts of a load, or what refuses it.
fn text_of(
    alloc: Global,
    rows: u64,
    count: u64,
    seed: u64,
    proposers: Vec<Box<dyn Proposer>>,
) -> Result<String, Refusal>
    requires few { length proposers.items ≤ 64 }
    ensures opened { (a : Asked) → IfOk result (λ text. HasOpened (List ℕ)
        (IsLoaded (λ p i. map (λ b. proposal (named b) (gives b p i)) proposers.items)
        rows count seed) a (string_bytes text)) }
    ensures refused { (a : Asked) → IfErr result (HasRefusal
        (IsRefused (λ p i. map (λ b. proposal (named b) (gives b p i)) proposers.items)
        rows count seed) a) }
{
    let queries = load_queries(alloc, rows, count, seed)?;
    let pres = unitriangular(alloc, rows)?;
    counts(alloc, &pres, queries.as_bytes(), proposers)
}

/// The line of the counts of the replies to lines over a presentation, or how its compile ends
/// otherwise.
fn counts(
    alloc: Global,
    pres: &Presentation,
    queries: &[u8],
    proposers: Vec<Box<dyn Proposer>>,
) -> Result<String, Refusal>
    requires few { length proposers.items ≤ 64 }
    ensures counted { IfOk result (λ text. (c : Compiled) × (t : Tally)
        × IsCompiledBy (λ i. map (λ b. proposal (named b) (gives b pres.now i)) proposers.items)
        pres.now c
        × IsTally c.checked (whole_lines queries.now) t
        × (string_bytes text ≡ as_line (tally_text t))) }
    ensures refused { IfErr result (λ r. (r.status ≡ Status.Memory)
        ⊎ (IsUncompiled (λ i. map (λ b. proposal (named b) (gives b pres.now i)) proposers.items)
        pres.now r.status × Says pres.now.names r)) }
{
    let _count = pres.count();
    let compiled = compiled(alloc, pres, proposers)?;
    let line = line_of(alloc, compiled, queries)?;
    Ok(line)
}

/// The line of the counts of the replies to lines.
fn line_of(alloc: Global, compiled: Compiled, queries: &[u8]) -> Result<String, AllocError>
    requires level { compiled.checked.table.level ≡ 1 }
    requires lawful { IsPresented compiled.checked.pres }
    requires form { IsTabled compiled.checked.table }
    requires multiplies { IsChecked compiled.checked }
    ensures { IfOk result (λ text. (t : Tally) × IsTally compiled.checked (whole_lines queries.now) t
        × (string_bytes text ≡ as_line (tally_text t))) }
{
    let Compiled {
        checked,
        by: _by,
        asked: _asked,
    } = compiled;
    let mut calculator = Calculator::of(alloc, checked)?;
    let counts = tally(alloc, &mut calculator, queries)?;
    let mut text = counts.text(alloc)?;
    text.push_str("\n")?;
    Ok(text)
}
