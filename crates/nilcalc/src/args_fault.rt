//! Why a command line has no words.

use std::io;

/// Why a command line has no words.
#[derive(Clone, Copy, Debug, PartialEq, Eq)]
pub(crate) enum ArgsFault {
    /// One of them isn't UTF-8.
    NotText,
    /// Memory is wanting.
    Memory,
}

impl From<io::Error> for ArgsFault {
    fn from(fault: io::Error) -> ArgsFault {
        match fault.kind() {
            io::ErrorKind::OutOfMemory => ArgsFault::Memory,
            _ => ArgsFault::NotText,
        }
    }
}
