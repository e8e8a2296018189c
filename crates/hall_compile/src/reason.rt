//! Why a table isn't taken.

use identity_check::{Failure, Identity};

/// Why what a proposer gave for a level isn't taken.
#[derive(Debug, Drop)]
pub enum Reason {
    /// It gave no table.
    NoTable,
    /// The table is of another level, or has another last generator.
    WrongLevel,
    /// The first identity that fails.
    Refused(Failure),
    /// The first identity for which a written operation overflows 128 bits.
    Wide(Identity),
}
