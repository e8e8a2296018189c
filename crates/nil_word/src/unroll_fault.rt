//! Why an expression gets no word.

use std::alloc::AllocError;
use thiserror::Error;

/// Why `unroll` gives no word.
#[derive(Debug, Drop, Error)]
pub enum UnrollFault {
    #[error("the word is too long")]
    TooLong,
    #[error("out of memory")]
    Memory,
}

impl From<AllocError> for UnrollFault {
    ghost use Rattle.std.specs.Prelude.{◌≡◌};
    ghost use Rattle.nil_word.specs.declared.unroll_fault.UnrollFault.{UnrollFault};

    ghost from_gives = { λ _ fault. fault ≡ UnrollFault.Memory };

    fn from(_: AllocError) -> UnrollFault {
        UnrollFault::Memory
    }
}
