//! Why a presentation file isn't read.

ghost use Rattle.std.specs.Prelude.{◌≡◌, Some, IfOk, string_bytes};
ghost use Rattle.pres_text.specs.declared.pres_fault.PresFault.TheVariants.{Memory as memory};
ghost use Rattle.pres_text.specs.FaultTexts.{fault_text, file_fault_text};

use super::file_kind::FileKind;
use nil_pres::Memory;
use std::alloc::Global;
use std::error::Error;
use std::fmt;

/// The first fault of a file, with its line from 1, or want of memory.
#[derive(Debug, Drop)]
pub enum PresFault {
    File { line: u64, kind: FileKind },
    Memory,
}

impl From<Memory> for PresFault {
    ghost from_gives = { λ _ fault. fault ≡ memory };

    fn from(_refused: Memory) -> PresFault {
        PresFault::Memory
    }
}

impl fmt::Display for PresFault {
    ghost output = { λ fault. Some (fault_text fault) };

    fn fmt<W: fmt::Write>(&self, f: &mut fmt::Formatter<W>) -> fmt::Result {
        match self {
            PresFault::File { line, kind } => write!(f, "file {line} {kind}"),
            PresFault::Memory => f.write_str("want of memory"),
        }
    }
}

impl Error for PresFault {}

/// The text of a file's first fault: its line, from 1, and its kind.
pub fn fault_text(alloc: Global, line: u64, kind: FileKind) -> Result<String, Memory>
    ensures { IfOk result (λ text. string_bytes text ≡ file_fault_text line kind) }
{
    PresFault::File { line, kind }.to_string(alloc)
}
