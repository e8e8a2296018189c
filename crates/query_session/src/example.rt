//! The command `example KIND N`.

ghost use Rattle.std.specs.Prelude.{◌≡◌, ℕ, List, Option, string_bytes, IfOk, IfErr, IfSome, IfNone, IsErrOf, IsOkUnless};
ghost use Rattle.nil_io.specs.Causes.{Rose};
ghost use Rattle.session_io.specs.Asked.{Asked, fed};
ghost use Rattle.query_session.specs.Opening.{HasOpened, HasRefusal};
ghost use Rattle.query_session.specs.Sizes.{IsSizeRefused};
ghost use Rattle.query_session.specs.Example.{fault_of, example_of, IsExample, IsExampleOf};

use super::example_kind::ExampleKind;
use super::refusal::Refusal;
use super::status::Status;
use super::writing::write_by;
use nil_examples::{ExampleFault, free_class_two, unitriangular};
use nil_io::Sink;
use nil_pres::Presentation;
use std::alloc::Global;

/// Writes the presentation of an example.
pub(crate) fn example<K: Sink>(alloc: Global, kind: ExampleKind, size: u64, out: &mut K) -> Status
    ensures run { (limit : ℕ) (a : Asked) (left : Option (List ℕ)) (faults given : ℕ)
        → IsExampleOf kind size limit a (fed left left faults faults given given)
        result (K.written out.old) (K.written out.new) }
    ensures cause { result ≡ Status.WriteFault → Rose (K.faults out.old) (K.faults out.new) }
{
    let text = text_of(alloc, kind, size);
    write_by(alloc, text, out)
}

/// The text of an example, or what refuses it.
fn text_of(alloc: Global, kind: ExampleKind, size: u64) -> Result<String, Refusal>
    ensures opened { (a : Asked) → IfOk result (λ text. HasOpened (List ℕ)
        (IsExample kind size) a (string_bytes text)) }
    ensures refused { (a : Asked) → IfErr result
        (HasRefusal (IsSizeRefused (fault_of kind size)) a) }
{
    let pres = presentation_of(alloc, kind, size)?;
    let text = pres_text::write(alloc, &pres)?;
    Ok(text)
}

/// The presentation of an example.
fn presentation_of(
    alloc: Global,
    kind: ExampleKind,
    size: u64,
) -> Result<Presentation, ExampleFault>
    ensures refused { IfSome (fault_of kind size) (λ fault. IsErrOf result fault) }
    ensures taken { IfNone (fault_of kind size) (IsOkUnless result ExampleFault.Memory) }
    ensures ok { IfOk result (λ p. p ≡ example_of kind size) }
{
    match kind {
        ExampleKind::Unitriangular => unitriangular(alloc, size),
        ExampleKind::FreeClassTwo => free_class_two(alloc, size),
    }
}
