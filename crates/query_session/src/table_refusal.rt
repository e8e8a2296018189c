//! Why a table file is refused.

ghost use Rattle.std.specs.Prelude.{◌≡◌, string_bytes, IfOk};
ghost use Rattle.query_session.specs.Statuses.{refusal_text};

use identity_check::{Failure, Identity};
use std::alloc::{AllocError, Global};
use table_json::TableFault;

/// Why a table file is refused.
#[derive(Debug, PartialEq, Eq, Drop)]
pub enum TableRefusal {
    /// Its first fault.
    Form(TableFault),
    /// The first identity that fails, with a point and the two sides there.
    Identity(Failure),
    /// The first identity that overflows 128 bits.
    Wide(Identity),
}

impl TableRefusal {
    /// The text of the refusal.
    pub(crate) fn text(&self, alloc: Global) -> Result<String, AllocError>
        ensures { IfOk result (λ text. string_bytes text ≡ refusal_text self.now) }
    {
        match self {
            TableRefusal::Form(fault) => fault.to_string(alloc),
            TableRefusal::Identity(failure) => {
                let text = failure.text(alloc)?;
                format!(in alloc; "table refused {text}")
            }
            TableRefusal::Wide(identity) => format!(in alloc; "table wide {identity}"),
        }
    }
}
