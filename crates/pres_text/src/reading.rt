//! Reads presentation files.

ghost use Rattle.std.specs.Prelude.{◌≡◌, ◌⊎◌, ◌+◌, length, Some, IfSome, IfNone, IfOk, IfErr, IsOkUnless, Ok, Err};
ghost use Rattle.nil_num.specs.Outcome.{Gives};
ghost use Rattle.pres_text.specs.Lines.{lines, content_from, content};
ghost use Rattle.nil_pres.specs.Presented.{Presented};
ghost use Rattle.pres_text.specs.FirstFault.{first_fault};
ghost use Rattle.pres_text.specs.File.{IsFile};
ghost use Rattle.pres_text.specs.Reading.{fault_place, second_drafted_fault, second_drafted, all_drafted_fault, all_drafted};

use super::file_kind::FileKind;
use super::generators::{add_generators, header_fault};
use super::lines::Lines;
use super::pres_fault::PresFault;
use super::relations::add_lines;
use nil_pres::{Builder, Presentation};
use std::alloc::Global;

/// Reads the lines behind the header.
fn read_second(alloc: Global, left: &mut Lines) -> Result<Builder, PresFault>
    ensures fault { IfSome (second_drafted_fault
        (left.old.number + length (lines left.old.rest.now))
        (content_from left.old.number (lines left.old.rest.now)))
        (λ f. Gives fault_place result (λ r. r ≡ Err f)) }
    ensures fine { IfNone (second_drafted_fault (left.old.number + length (lines left.old.rest.now))
        (content_from left.old.number (lines left.old.rest.now)))
        (IsOkUnless result PresFault.Memory) }
    ensures ok { IfOk result (λ b. b ≡ second_drafted
        (content_from left.old.number (lines left.old.rest.now))) }
{
    let Some(line) = left.next_content() else {
        return Err(PresFault::File {
            line: left.number,
            kind: FileKind::Header,
        });
    };
    let mut builder = Builder::new(alloc)?;
    add_generators(&mut builder, &line)?;
    add_lines(alloc, &mut builder, left)?;
    Ok(builder)
}

/// Reads all lines.
fn read_lines(alloc: Global, bytes: &[u8]) -> Result<Builder, PresFault>
    ensures fault { IfSome (all_drafted_fault (length (lines bytes.now) + 1) (content bytes.now))
        (λ f. Gives fault_place result (λ r. r ≡ Err f)) }
    ensures fine { IfNone (all_drafted_fault (length (lines bytes.now) + 1) (content bytes.now))
        (IsOkUnless result PresFault.Memory) }
    ensures ok { IfOk result (λ b. b ≡ all_drafted (content bytes.now)) }
{
    let mut left = Lines::new(bytes);
    let Some(line) = left.next_content() else {
        return Err(PresFault::File {
            line: left.number,
            kind: FileKind::Header,
        });
    };
    if let Some(kind) = header_fault(line.text) {
        return Err(PresFault::File {
            line: line.number,
            kind,
        });
    }
    read_second(alloc, &mut left)
}

/// Reads a presentation file. The first fault is named: the first line that breaks a rule, and the
/// first rule that it breaks.
pub fn read(alloc: Global, bytes: &[u8]) -> Result<Presentation, PresFault>
    // What is read is what the file says.
    ensures read { IfOk result (λ p. IsFile p bytes.now) }
    // What a file says is read, unless memory runs out.
    ensures only { (p : Presented) → IsFile p bytes.now → Gives fault_place result (λ r. r ≡ Ok p) }
    // A fault is the first one, or memory ran out.
    ensures fault { IfErr result (λ f. (f ≡ PresFault.Memory) ⊎ (first_fault bytes.now ≡ Some f)) }
    // A file with a fault is refused with it, unless memory runs out.
    ensures only_fault { IfSome (first_fault bytes.now)
        (λ f. Gives fault_place result (λ r. r ≡ Err f)) }
{
    let builder = read_lines(alloc, bytes)?;
    match builder.finish() {
        Some(presentation) => Ok(presentation),
        None => unreachable!(),
    }
}
