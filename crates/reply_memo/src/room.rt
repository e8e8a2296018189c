//! How much is kept.

/// The greatest number of lines whose replies are kept.
pub const ROOM: usize = 256;
