//! Limits of what is read.

/// The greatest number of bytes of a presentation file.
pub(crate) const FILE_LIMIT: u64 = 4194304;

/// The greatest number of bytes of a table file.
pub(crate) const TABLE_LIMIT: u64 = 16777216;

/// The greatest number of query bytes.
pub(crate) const QUERY_LIMIT: u64 = 4294967296;
