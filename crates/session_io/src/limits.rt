//! The limit of a line.

/// The greatest number of bytes of a line that isn't long.
pub const LINE_LIMIT: usize = 65536;
