//! How a session ends.

ghost use Rattle.std.specs.Prelude.{◌≡◌};
ghost use Rattle.query_session.specs.Statuses.{number_of};

use super::table_refusal::TableRefusal;
use super::usage_kind::UsageKind;
use hall_compile::WidePlace;
use nil_io::ShelfFault;
use overlap_test::Overlap;
use pres_text::{FileKind, PresFault};
use std::alloc::AllocError;
use table_json::TableFault;

/// How a session ends.
#[derive(Drop)]
pub enum Status {
    /// All was answered and written.
    Done,
    /// The words are refused.
    Usage(UsageKind),
    /// The presentation file's first fault, with its line from 1.
    BadFile { line: u64, kind: FileKind },
    /// The first overlap of the presentation whose two ways differ.
    Inconsistent(Overlap),
    /// Where a value overflows 128 bits on the way to a table.
    Wide(WidePlace),
    /// A file or the query lines could not be read.
    ReadFault,
    /// The output could not be written.
    WriteFault,
    /// Memory is wanting.
    Memory,
    /// The table file is refused.
    TableRefused(TableRefusal),
    /// A file or the query lines are too long.
    LongInput,
    /// The first size that is out of range.
    Size(u64),
}

impl Status {
    /// The number that the program ends with.
    pub fn number(&self) -> u8
        ensures { result ≡ number_of self.now }
    {
        match self {
            Status::Done => 0,
            Status::Usage(_) => 2,
            Status::BadFile { .. } => 3,
            Status::Inconsistent(_) => 4,
            Status::Wide(_) => 5,
            Status::ReadFault => 6,
            Status::WriteFault => 7,
            Status::Memory => 8,
            Status::TableRefused(_) => 9,
            Status::LongInput => 10,
            Status::Size(_) => 11,
        }
    }
}

impl From<ShelfFault> for Status {
    ghost use Rattle.query_session.specs.Statuses.{file_status};

    ghost from_gives = { λ fault status. status ≡ file_status fault };

    fn from(fault: ShelfFault) -> Status {
        match fault {
            ShelfFault::Failed => Status::ReadFault,
            ShelfFault::Long => Status::LongInput,
            ShelfFault::Memory => Status::Memory,
        }
    }
}

impl From<PresFault> for Status {
    ghost use Rattle.query_session.specs.Statuses.{pres_status};

    ghost from_gives = { λ fault status. status ≡ pres_status fault };

    fn from(fault: PresFault) -> Status {
        match fault {
            PresFault::File { line, kind } => Status::BadFile { line, kind },
            PresFault::Memory => Status::Memory,
        }
    }
}

impl From<TableFault> for Status {
    ghost use Rattle.query_session.specs.Statuses.{table_status};

    ghost from_gives = { λ fault status. status ≡ table_status fault };

    fn from(fault: TableFault) -> Status {
        match fault {
            TableFault::Memory => Status::Memory,
            _ => Status::TableRefused(TableRefusal::Form(fault)),
        }
    }
}

impl From<AllocError> for Status {
    ghost use Rattle.query_session.specs.declared.status.Status.TheVariants.{Memory};

    ghost from_gives = { λ _ status. status ≡ Memory };

    fn from(_refused: AllocError) -> Status {
        Status::Memory
    }
}
