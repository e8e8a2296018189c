//! Sessions that end before the queries.

ghost use Rattle.std.specs.Prelude.{◌≡◌, ◌≢◌, ◌⊎◌};
ghost use Rattle.nil_io.specs.Causes.{Rose};
ghost use Rattle.query_session.specs.Refusals.{said};
ghost use Rattle.query_session.specs.Statuses.{outcome_status, Ended};

use super::refusal::Refusal;
use super::saying::say;
use super::status::Status;
use nil_io::Sink;
use session_io::{End, Stop};
use std::alloc::Global;

/// Writes the text of a refusal, and nothing where memory is wanting.
pub(crate) fn refuse<K: Sink>(alloc: Global, out: &mut K, refusal: Refusal) -> Status
    ensures ended { refusal.status ≢ Status.Memory → Ended (said refusal) refusal.status
        (K.written out.old) (K.written out.new) result }
    ensures memory { refusal.status ≡ Status.Memory
        → (result ≡ Status.Memory) × (K.written out.new ≡ K.written out.old) }
    ensures cause { result ≡ Status.WriteFault
        → (refusal.status ≡ Status.WriteFault) ⊎ Rose (K.faults out.old) (K.faults out.new) }
{
    let Refusal { status, text } = refusal;
    match status {
        Status::Memory => Status::Memory,
        _ => match say(alloc, out, &status, text) {
            Ok(()) => status,
            Err(stop) => status_of(Err(stop)),
        },
    }
}

/// The status of how the answering ended.
pub(crate) fn status_of(outcome: Result<End, Stop>) -> Status
    ensures status { result ≡ outcome_status outcome }
    ensures cause { result ≡ Status.WriteFault → outcome ≡ Err Stop.Failed }
{
    match outcome {
        Ok(End::Finished) => Status::Done,
        Ok(End::Failed) => Status::ReadFault,
        Ok(End::Long) => Status::LongInput,
        Err(Stop::Failed) => Status::WriteFault,
        Err(Stop::Memory) => Status::Memory,
    }
}
