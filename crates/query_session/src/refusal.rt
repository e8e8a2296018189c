//! What is refused before the output.

use super::status::Status;
use nil_examples::ExampleFault;
use std::alloc::AllocError;

/// A status that refuses, with its text where that names generators of a presentation.
#[derive(Drop)]
pub(crate) struct Refusal {
    pub status: Status,
    pub text: Option<String>,
}

impl From<Status> for Refusal {
    ghost use Rattle.std.specs.Prelude.{◌≡◌};
    ghost use Rattle.query_session.specs.Refusals.{plain};

    ghost from_gives = { λ status refusal. refusal ≡ plain status };

    fn from(status: Status) -> Refusal {
        Refusal { status, text: None }
    }
}

impl From<AllocError> for Refusal {
    ghost use Rattle.std.specs.Prelude.{◌≡◌};
    ghost use Rattle.query_session.specs.declared.status.Status.TheVariants.{Memory};
    ghost use Rattle.query_session.specs.Refusals.{plain};

    ghost from_gives = { λ _ refusal. refusal ≡ plain Memory };

    fn from(_refused: AllocError) -> Refusal {
        Refusal {
            status: Status::Memory,
            text: None,
        }
    }
}

impl From<ExampleFault> for Refusal {
    ghost use Rattle.std.specs.Prelude.{◌≡◌};
    ghost use Rattle.query_session.specs.Refusals.{plain};
    ghost use Rattle.query_session.specs.Statuses.{example_status};

    ghost from_gives = { λ fault refusal. refusal ≡ plain (example_status fault) };

    fn from(fault: ExampleFault) -> Refusal {
        let status = match fault {
            ExampleFault::Size(size) => Status::Size(size),
            ExampleFault::Memory => Status::Memory,
        };
        Refusal { status, text: None }
    }
}
