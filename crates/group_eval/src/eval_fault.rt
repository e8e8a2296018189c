//! Why an expression isn't evaluated.

use hall_table::WideAt;
use nil_word::Vector;
use std::alloc::AllocError;
use thiserror::Error;

/// Why an expression isn't evaluated.
#[derive(Clone, Copy, PartialEq, Eq, Debug, Drop, Error)]
pub enum EvalFault {
    /// A value overflowed 128 bits, with the first place.
    #[error("{0}")]
    Wide(WideAt),
    #[error("want of memory")]
    Memory,
}

/// What an evaluation gives.
pub(super) type Evaluated = Result<Vector, EvalFault>;

impl From<WideAt> for EvalFault {
    ghost use Rattle.std.specs.Prelude.{◌≡◌};
    ghost use Rattle.group_eval.specs.declared.eval_fault.EvalFault.{EvalFault};

    ghost from_gives = { λ at fault. fault ≡ EvalFault.Wide at };

    fn from(at: WideAt) -> EvalFault {
        EvalFault::Wide(at)
    }
}

impl From<AllocError> for EvalFault {
    ghost use Rattle.std.specs.Prelude.{◌≡◌};
    ghost use Rattle.group_eval.specs.declared.eval_fault.EvalFault.{EvalFault};

    ghost from_gives = { λ _ fault. fault ≡ EvalFault.Memory };

    fn from(_: AllocError) -> EvalFault {
        EvalFault::Memory
    }
}
