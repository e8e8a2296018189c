//! Why a walk over the identities ends early.

ghost use Rattle.identity_check.specs.Halts.{HandsOn};

use crate::failure::Failure;
use crate::identity::Identity;
use binom_poly::{Poly, PolyFault};
use std::alloc::{AllocError, AllocFailed};

/// The first event that stops, or want of memory.
#[derive(Debug, Drop)]
pub enum Halt {
    Failed(Failure),
    Wide(Identity),
    Memory,
}

impl From<AllocError> for Halt {
    ghost use Rattle.std.specs.Prelude.{◌≡◌};
    ghost use Rattle.identity_check.specs.declared.halt.Halt.TheVariants.{Memory};

    ghost from_gives = { λ _ halt. halt ≡ Memory };

    fn from(_error: AllocError) -> Halt {
        Halt::Memory
    }
}

impl<T: Drop> From<AllocFailed<T>> for Halt {
    ghost use Rattle.std.specs.Prelude.{◌≡◌};
    ghost use Rattle.identity_check.specs.declared.halt.Halt.TheVariants.{Memory};

    ghost from_gives = { λ _ halt. halt ≡ Memory };

    fn from(_failed: AllocFailed<T>) -> Halt {
        Halt::Memory
    }
}

/// A polynomial that was made, or the identity for which it is wide.
pub fn named(identity: Identity, made: Result<Poly, PolyFault>) -> Result<Poly, Halt>
    ensures { HandsOn identity made result }
{
    match made {
        Ok(p) => Ok(p),
        Err(PolyFault::Wide) => Err(Halt::Wide(identity)),
        Err(PolyFault::Memory) => Err(Halt::Memory),
    }
}
