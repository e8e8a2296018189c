//! Why a word isn't collected.

use std::alloc::AllocError;
use thiserror::Error;

/// Why `append` or `collect` gives no vector.
#[derive(Debug, Drop, Error)]
pub enum CollectFault {
    #[error("the word is too long")]
    LongWord,
    #[error("too many letters are appended")]
    Steps,
    #[error("out of memory")]
    Memory,
}

impl From<AllocError> for CollectFault {
    ghost use Rattle.std.specs.Prelude.{◌≡◌};
    ghost use Rattle.left_collect.specs.declared.collect_fault.CollectFault.{CollectFault};

    ghost from_gives = { λ _ fault. fault ≡ CollectFault.Memory };

    fn from(_: AllocError) -> CollectFault {
        CollectFault::Memory
    }
}
