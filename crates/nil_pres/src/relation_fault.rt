//! Faults of relations.

use std::alloc::AllocError;
use thiserror::Error;

/// Why a relation isn't taken. Places of syllables count from 0.
#[derive(Debug, Drop, Error)]
pub enum RelationFault {
    #[error("the first generator isn't above the second")]
    Order,
    #[error("the pair was added before")]
    Twice,
    #[error("syllable {0} isn't above the one before it")]
    Above(usize),
    #[error("syllable {0} has an exponent out of range")]
    Number(usize),
    #[error("syllable {0} has the exponent 0")]
    Zero(usize),
    #[error("want of memory")]
    Memory,
}

impl From<AllocError> for RelationFault {
    ghost use Rattle.std.specs.Prelude.{◌≡◌};
    ghost use Rattle.nil_pres.specs.declared.relation_fault.RelationFault.{RelationFault};

    ghost from_gives = { λ _ fault. fault ≡ RelationFault.Memory };

    fn from(_: AllocError) -> RelationFault {
        RelationFault::Memory
    }
}
