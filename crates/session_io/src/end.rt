//! How the reading of a source ends.

/// How the reading of a source ends.
#[derive(Clone, Copy, Debug, PartialEq, Eq)]
pub enum End {
    /// All was read.
    Finished,
    /// The source failed.
    Failed,
    /// There are more bytes than the limit.
    Long,
}
