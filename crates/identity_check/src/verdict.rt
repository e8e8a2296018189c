//! What a check says.

use crate::failure::Failure;
use crate::identity::Identity;
use hall_table::Checked;

/// What a check says of a table.
#[derive(Drop)]
pub enum Verdict {
    /// Each identity holds: the table multiplies in the presentation.
    Accepted(Checked),
    /// The first identity that fails.
    Refused(Failure),
    /// The first identity for which a written operation overflows 128 bits.
    Wide(Identity),
}
