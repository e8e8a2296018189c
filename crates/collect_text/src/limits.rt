//! Limits of what is answered.

/// The greatest number of letters of a word that is collected.
pub(crate) const LETTER_LIMIT: u64 = 64;
