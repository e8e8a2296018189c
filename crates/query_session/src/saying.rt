//! The texts of statuses.

ghost use Rattle.std.specs.Prelude.{◌≡◌, ◌≤◌, [], ◌∷◌, ◌++◌, codes, string_bytes, IfOk, IfErr, OnOk, IsErrOf};
ghost use Rattle.std.specs.Fmt.{decimal};
ghost use Rattle.std.specs.Io.KnownBytes.{Appends};
ghost use Rattle.pres_text.specs.FaultTexts.{file_fault_text};
ghost use Rattle.nil_io.specs.Causes.{Rose};
ghost use Rattle.session_io.specs.Lines.{as_lines};
ghost use Rattle.session_io.specs.Stops.{IsStopped};
ghost use Rattle.query_session.specs.Refusals.{text_or};
ghost use Rattle.query_session.specs.Statuses.{refusal_text, plain_text};

use super::status::Status;
use super::table_refusal::TableRefusal;
use nil_io::Sink;
use pres_text::{FileKind, fault_text};
use session_io::{Stop, put_all};
use std::alloc::{AllocError, Global};

/// Writes the text of a status, or its own where it names no generator.
pub(crate) fn say<K: Sink>(
    alloc: Global,
    out: &mut K,
    status: &Status,
    text: Option<String>,
) -> Result<(), Stop>
    ensures ok { OnOk result (Appends (K.written out.old) (K.written out.new)
        (text_or (as_lines (plain_text status.now)) text)) }
    ensures err { IfErr result (IsStopped (text_or (as_lines (plain_text status.now)) text)
        (K.written out.old) (K.written out.new)) }
    ensures later { K.faults out.old ≤ K.faults out.new }
    ensures cause { IsErrOf result Stop.Failed → Rose (K.faults out.old) (K.faults out.new) }
{
    let lines = lines_of(alloc, status, text)?;
    put_all(out, lines.as_bytes())
}

fn lines_of(alloc: Global, status: &Status, text: Option<String>) -> Result<String, AllocError>
    ensures { IfOk result (λ lines. string_bytes lines
        ≡ text_or (as_lines (plain_text status.now)) text) }
{
    match text {
        Some(text) => Ok(text),
        None => status_line(alloc, status),
    }
}

/// The text of a status that names no generator, with a line feed, or none.
fn status_line(alloc: Global, status: &Status) -> Result<String, AllocError>
    ensures { IfOk result (λ line. string_bytes line ≡ as_lines (plain_text status.now)) }
{
    match status {
        Status::BadFile { line, kind } => bad_file_line(alloc, *line, *kind),
        Status::Usage(_) => String::from_str(alloc, "usage\n"),
        Status::ReadFault => String::from_str(alloc, "read fault\n"),
        Status::TableRefused(refusal) => table_refused_line(alloc, refusal),
        Status::LongInput => String::from_str(alloc, "long input\n"),
        Status::Size(size) => size_line(alloc, *size),
        Status::Done
        | Status::Inconsistent(_)
        | Status::Wide(_)
        | Status::WriteFault
        | Status::Memory => Ok(String::new(alloc)),
    }
}

fn bad_file_line(alloc: Global, line: u64, kind: FileKind) -> Result<String, AllocError>
    ensures { IfOk result (λ text. string_bytes text ≡ as_lines (file_fault_text line kind ∷ [])) }
{
    let mut text = fault_text(alloc, line, kind)?;
    text.push_str("\n")?;
    Ok(text)
}

fn size_line(alloc: Global, size: u64) -> Result<String, AllocError>
    ensures { IfOk result (λ text. string_bytes text
        ≡ as_lines ((codes "size " ++ decimal size) ∷ [])) }
{
    let mut text = format!(in alloc; "size {size}")?;
    text.push_str("\n")?;
    Ok(text)
}

fn table_refused_line(alloc: Global, refusal: &TableRefusal) -> Result<String, AllocError>
    ensures { IfOk result (λ text. string_bytes text ≡ as_lines (refusal_text refusal.now ∷ [])) }
{
    let mut text = refusal.text(alloc)?;
    text.push_str("\n")?;
    Ok(text)
}
