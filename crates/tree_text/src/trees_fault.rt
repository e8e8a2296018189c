//! Why there are no lines.

use binom_poly::{Memory, PolyFault};
use thiserror::Error;

/// Why there are no lines.
#[derive(Clone, Copy, PartialEq, Eq, Debug, Drop, Error)]
pub enum TreesFault {
    /// A number of the polynomial overflows 128 bits.
    #[error("a number of the polynomial overflows 128 bits")]
    Wide,
    #[error("want of memory")]
    Memory,
}

impl From<PolyFault> for TreesFault {
    ghost use Rattle.std.specs.Prelude.{◌≡◌};
    ghost use Rattle.tree_text.specs.Faults.{fault_of};

    ghost from_gives = { λ fault made. made ≡ fault_of fault };

    fn from(fault: PolyFault) -> TreesFault {
        match fault {
            PolyFault::Wide => TreesFault::Wide,
            PolyFault::Memory => TreesFault::Memory,
        }
    }
}

impl From<Memory> for TreesFault {
    ghost use Rattle.std.specs.Prelude.{◌≡◌};
    ghost use Rattle.tree_text.specs.declared.trees_fault.TreesFault.TheVariants.{Memory};

    ghost from_gives = { λ _ made. made ≡ Memory };

    fn from(_error: Memory) -> TreesFault {
        TreesFault::Memory
    }
}
