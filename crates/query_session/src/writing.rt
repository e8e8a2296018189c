//! Sessions that write one text.

ghost use Rattle.std.specs.Prelude.{◌≡◌, ◌⊎◌, ℕ, List, Option, string_bytes, IfOk, IfErr};
ghost use Rattle.nil_io.specs.Causes.{Rose};
ghost use Rattle.session_io.specs.Asked.{fed};
ghost use Rattle.query_session.specs.Ends.{IsRefusedAs, RefusesWith};
ghost use Rattle.query_session.specs.Statuses.{Ended};

use super::refusal::Refusal;
use super::refusing::{refuse, status_of};
use super::status::Status;
use nil_io::Sink;
use session_io::put_all;
use std::alloc::Global;

/// Writes a text, or what refuses it.
pub(crate) fn write_by<K: Sink>(alloc: Global, text: Result<String, Refusal>, out: &mut K) -> Status
    ensures written { IfOk text (λ t. Ended (string_bytes t) Status.Done
        (K.written out.old) (K.written out.new) result) }
    ensures refused { (left : Option (List ℕ)) (faults given : ℕ) → IfErr text (λ refusal.
        IsRefusedAs refusal (fed left left faults faults given given)
        result (K.written out.old) (K.written out.new)) }
    ensures cause { result ≡ Status.WriteFault
        → RefusesWith text Status.WriteFault ⊎ Rose (K.faults out.old) (K.faults out.new) }
{
    match text {
        Ok(text) => write(out, text.as_bytes()),
        Err(refusal) => refuse(alloc, out, refusal),
    }
}

/// Writes bytes.
fn write<K: Sink>(out: &mut K, bytes: &[u8]) -> Status
    ensures written { Ended bytes.now Status.Done (K.written out.old) (K.written out.new) result }
    ensures cause { result ≡ Status.WriteFault → Rose (K.faults out.old) (K.faults out.new) }
{
    match put_all(out, bytes) {
        Ok(()) => Status::Done,
        Err(stop) => status_of(Err(stop)),
    }
}
