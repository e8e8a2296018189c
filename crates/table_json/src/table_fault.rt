//! Why a table text isn't read.

ghost use Rattle.std.specs.Prelude.{◌≡◌, Some};
ghost use Rattle.table_json.specs.declared.table_fault.TableFault.TheVariants.{Memory as memory};
ghost use Rattle.table_json.specs.FaultTexts.{fault_text};

use super::key::Key;
use std::alloc::{AllocError, AllocFailed};
use std::error::Error;
use std::fmt;

/// The first fault of a table text, or want of memory.
#[derive(Clone, Copy, PartialEq, Eq, Debug, Drop)]
pub enum TableFault {
    /// The bytes are no JSON text.
    Json,
    /// This key is missing, or its value isn't as the format says.
    Field(Key),
    /// A coefficient isn't a decimal, is zero or is wide.
    Number,
    /// Variables don't ascend, or a monomial doesn't come after the one before it.
    Order,
    /// The polynomial of this generator is the first that breaks the shape.
    Shape(u32),
    Memory,
}

impl From<AllocError> for TableFault {
    ghost from_gives = { λ _ fault. fault ≡ memory };

    fn from(_refused: AllocError) -> TableFault {
        TableFault::Memory
    }
}

impl<T: Drop> From<AllocFailed<T>> for TableFault {
    ghost from_gives = { λ _ fault. fault ≡ memory };

    fn from(_refused: AllocFailed<T>) -> TableFault {
        TableFault::Memory
    }
}

impl fmt::Display for TableFault {
    ghost output = { λ fault. Some (fault_text fault) };

    fn fmt<W: fmt::Write>(&self, f: &mut fmt::Formatter<W>) -> fmt::Result {
        match self {
            TableFault::Json => f.write_str("table json"),
            TableFault::Field(key) => write!(f, "table field {key}"),
            TableFault::Number => f.write_str("table number"),
            TableFault::Order => f.write_str("table order"),
            TableFault::Shape(k) => write!(f, "table shape {k}"),
            TableFault::Memory => f.write_str("want of memory"),
        }
    }
}

impl Error for TableFault {}
