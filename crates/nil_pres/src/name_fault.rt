//! Faults of names.

use std::alloc::AllocError;
use thiserror::Error;

/// Why a name isn't taken.
#[derive(Debug, Drop, Error)]
pub enum NameFault {
    #[error("there are 48 names")]
    TooMany,
    #[error("the text isn't a name")]
    Name,
    #[error("the name is there already")]
    TwiceName,
    #[error("want of memory")]
    Memory,
}

impl From<AllocError> for NameFault {
    ghost use Rattle.std.specs.Prelude.{◌≡◌};
    ghost use Rattle.nil_pres.specs.declared.name_fault.NameFault.{NameFault};

    ghost from_gives = { λ _ fault. fault ≡ NameFault.Memory };

    fn from(_: AllocError) -> NameFault {
        NameFault::Memory
    }
}
