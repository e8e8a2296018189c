//! Proposers that were asked in vain.

use super::reason::Reason;

/// A proposer that was asked for the table of a level, and why that wasn't taken.
#[derive(Debug, Drop)]
pub struct Asked {
    pub level: u32,
    pub label: u32,
    pub reason: Reason,
}
