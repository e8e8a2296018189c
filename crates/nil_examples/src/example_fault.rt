//! Why there is no example.

use std::alloc::AllocError;
use thiserror::Error;

/// Why an example isn't made.
#[derive(Debug, Drop, Error)]
pub enum ExampleFault {
    #[error("size {0}")]
    Size(u64),
    #[error("out of memory")]
    Memory,
}

impl From<AllocError> for ExampleFault {
    ghost use Rattle.std.specs.Prelude.{◌≡◌};
    ghost use Rattle.nil_examples.specs.declared.example_fault.ExampleFault.{ExampleFault};

    ghost from_gives = { λ _ fault. fault ≡ ExampleFault.Memory };

    fn from(_: AllocError) -> ExampleFault {
        ExampleFault::Memory
    }
}
