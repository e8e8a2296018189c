//! The command `compile PRES`.

ghost use Rattle.std.specs.Prelude.{◌≡◌, ◌≤◌, ℕ, List, Option, length, map, string_bytes, IfOk, IfErr};
ghost use Rattle.hall_table.specs.Tabled.{last_of};
ghost use Rattle.hall_compile.specs.Proposals.{proposal};
ghost use Rattle.table_json.specs.Format.{table_text};
ghost use Rattle.table_json.specs.Saying.{IsTableText};
ghost use Rattle.nil_io.specs.Causes.{Rose};
ghost use Rattle.session_io.specs.Asked.{fed};
ghost use Rattle.session_io.specs.Lines.{as_line};
ghost use Rattle.query_session.specs.Shown.{asked_of};
ghost use Rattle.query_session.specs.Opening.{HasOpened, HasRefusal};
ghost use Rattle.query_session.specs.Compiling.{IsRefused};
ghost use Rattle.query_session.specs.Compile.{IsTableOf, IsCompileOf};

use super::compiling::compiled_of;
use super::refusal::Refusal;
use super::status::Status;
use super::writing::write_by;
use hall_table::Table;
use nil_io::{Shelf, Sink};
use nil_propose::Proposer;
use std::alloc::{AllocError, Global};
use table_json::write_table;

/// Writes the table that a presentation compiles to.
pub(crate) fn compile<H: Shelf, K: Sink>(
    alloc: Global,
    pres: &str,
    shelf: &mut H,
    out: &mut K,
    proposers: Vec<Box<dyn Proposer>>,
) -> Status
    requires few { length proposers.items ≤ 64 }
    ensures run { (limit : ℕ) (words : List (List ℕ)) (left : Option (List ℕ)) (faults given : ℕ)
        → IsCompileOf (λ p i. map (λ b. proposal (named b) (gives b p i)) proposers.items) pres.now limit
        (asked_of words H.contents H.faults H.longs shelf.old shelf.new)
        (fed left left faults faults given given)
        result (K.written out.old) (K.written out.new) }
    ensures cause { result ≡ Status.WriteFault → Rose (K.faults out.old) (K.faults out.new) }
{
    let table = table_of(alloc, pres, shelf, proposers);
    write_by(alloc, table, out)
}

/// The text of the table that a presentation compiles to, or what refuses it.
fn table_of<H: Shelf>(
    alloc: Global,
    pres: &str,
    shelf: &mut H,
    proposers: Vec<Box<dyn Proposer>>,
) -> Result<String, Refusal>
    requires few { length proposers.items ≤ 64 }
    ensures opened { (words : List (List ℕ)) → IfOk result (λ text. HasOpened (List ℕ)
        (IsTableOf (λ p i. map (λ b. proposal (named b) (gives b p i)) proposers.items) pres.now)
        (asked_of words H.contents H.faults H.longs shelf.old shelf.new)
        (string_bytes text)) }
    ensures refused { (words : List (List ℕ)) → IfErr result (HasRefusal
        (IsRefused (λ p i. map (λ b. proposal (named b) (gives b p i)) proposers.items) pres.now)
        (asked_of words H.contents H.faults H.longs shelf.old shelf.new)) }
{
    let compiled = compiled_of(alloc, pres, shelf, proposers)?;
    let text = table_line(alloc, compiled.checked.table())?;
    Ok(text)
}

/// The text of a table as a line.
fn table_line(alloc: Global, table: &Table) -> Result<String, AllocError>
    requires { table.now.level ≡ 1 }
    ensures text { IfOk result (λ text. string_bytes text ≡ as_line (table_text table.now)) }
    ensures says { IfOk result (λ _. IsTableText (last_of table.now) (table_text table.now) table.now) }
{
    let mut text = write_table(alloc, table)?;
    text.push_str("\n")?;
    Ok(text)
}
