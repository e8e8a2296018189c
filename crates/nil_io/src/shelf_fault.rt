//! Why a shelf gives no file.

use thiserror::Error;

/// Why a file isn't given.
#[derive(Clone, Copy, Debug, PartialEq, Eq, Error)]
pub enum ShelfFault {
    #[error("the shelf failed")]
    Failed,
    #[error("the file is too long")]
    Long,
    #[error("want of memory")]
    Memory,
}
