//! Why a sum plan gives no answer.

use crate::Memory;
use crate::sum_place::SumPlace;
use std::alloc::AllocFailed;
use thiserror::Error;

/// Why a sum plan gives no answer.
#[derive(Clone, Copy, PartialEq, Eq, Debug, Drop, Error)]
pub enum SumFault {
    /// The first place of the plan that overflows.
    #[error("a step of the sum plan overflows 128 bits")]
    Wide(SumPlace),
    #[error("want of memory")]
    Memory,
}

impl From<Memory> for SumFault {
    ghost use Rattle.std.specs.Prelude.{◌≡◌};
    ghost use Rattle.sum_compiler.specs.declared.sum_fault.SumFault.TheVariants.{Memory};

    ghost from_gives = { λ _ fault. fault ≡ Memory };

    fn from(_error: Memory) -> SumFault {
        SumFault::Memory
    }
}

impl<T: Drop> From<AllocFailed<T>> for SumFault {
    ghost use Rattle.std.specs.Prelude.{◌≡◌};
    ghost use Rattle.sum_compiler.specs.declared.sum_fault.SumFault.TheVariants.{Memory};

    ghost from_gives = { λ _ fault. fault ≡ Memory };

    fn from(_failed: AllocFailed<T>) -> SumFault {
        SumFault::Memory
    }
}
