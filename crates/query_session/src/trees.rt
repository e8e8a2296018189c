//! The command `trees PRES NAME`.

ghost use Rattle.std.specs.Prelude.{◌≡◌, ◌⊎◌, ◌≤◌, ℕ, List, Option, Some, None, length, string_bytes, IfOk, IfErr};
ghost use Rattle.hall_compile.specs.declared.wide_place.WidePlace.TheVariants as place;
ghost use Rattle.tree_text.specs.Lines.{PolyOverflows, IsTreesText};
ghost use Rattle.nil_io.specs.Causes.{Rose};
ghost use Rattle.session_io.specs.Asked.{fed};
ghost use Rattle.query_session.specs.Shown.{asked_of};
ghost use Rattle.query_session.specs.Opening.{HasOpened, HasRefusal};
ghost use Rattle.query_session.specs.Refusals.{Says};
ghost use Rattle.query_session.specs.Trees.{number_in, AreTrees, IsRefused, IsTreesOf};

use super::presentations::read_presentation;
use super::refusal::Refusal;
use super::status::Status;
use super::usage_kind::UsageKind;
use super::writing::write_by;
use compile_text::wide_text;
use hall_compile::WidePlace;
use nil_io::{Shelf, Sink};
use nil_pres::Presentation;
use std::alloc::Global;
use tree_text::{TreesFault, trees_text};

/// Writes the least trees of a generator at level 1, and their polynomial.
pub(crate) fn trees<H: Shelf, K: Sink>(
    alloc: Global,
    pres: &str,
    name: &str,
    shelf: &mut H,
    out: &mut K,
) -> Status
    ensures run { (limit : ℕ) (words : List (List ℕ)) (left : Option (List ℕ)) (faults given : ℕ)
        → IsTreesOf pres.now name.now limit
        (asked_of words H.contents H.faults H.longs shelf.old shelf.new)
        (fed left left faults faults given given)
        result (K.written out.old) (K.written out.new) }
    ensures cause { result ≡ Status.WriteFault → Rose (K.faults out.old) (K.faults out.new) }
{
    let text = text_of(alloc, pres, name, shelf);
    write_by(alloc, text, out)
}

/// The lines of the trees, or what refuses them.
fn text_of<H: Shelf>(
    alloc: Global,
    pres: &str,
    name: &str,
    shelf: &mut H,
) -> Result<String, Refusal>
    ensures opened { (words : List (List ℕ)) → IfOk result (λ text. HasOpened (List ℕ)
        (AreTrees pres.now name.now)
        (asked_of words H.contents H.faults H.longs shelf.old shelf.new)
        (string_bytes text)) }
    ensures refused { (words : List (List ℕ)) → IfErr result (HasRefusal
        (IsRefused pres.now name.now)
        (asked_of words H.contents H.faults H.longs shelf.old shelf.new)) }
{
    let presentation = read_presentation(alloc, pres, shelf)?;
    named(alloc, &presentation, name)
}

/// The lines of the trees of the generator with a name.
fn named(alloc: Global, pres: &Presentation, name: &str) -> Result<String, Refusal>
    ensures text { IfOk result (λ text. (k : ℕ) × (number_in pres.now name.now ≡ Some k)
        × IsTreesText pres.now k (string_bytes text)) }
    ensures refused { IfErr result (λ r. (r.status ≡ Status.Memory)
        ⊎ ((number_in pres.now name.now ≡ None)
        × (r.status ≡ Status.Usage UsageKind.NoGenerator) × Says pres.now.names r)
        ⊎ ((k : ℕ) × (number_in pres.now name.now ≡ Some k) × PolyOverflows pres.now k
        × (r.status ≡ Status.Wide (place.Trees k)) × Says pres.now.names r)) }
{
    let Some(k) = pres.index_of(name) else {
        return Err(Refusal::from(Status::Usage(UsageKind::NoGenerator)));
    };
    numbered(alloc, pres, k)
}

/// The lines of the trees of a generator.
fn numbered(alloc: Global, pres: &Presentation, k: u32) -> Result<String, Refusal>
    requires least { 1 ≤ k }
    requires most { k ≤ length pres.now.names }
    ensures text { IfOk result (λ text. IsTreesText pres.now k (string_bytes text)) }
    ensures refused { IfErr result (λ r. (r.status ≡ Status.Memory)
        ⊎ (PolyOverflows pres.now k × (r.status ≡ Status.Wide (place.Trees k))
        × Says pres.now.names r)) }
{
    match trees_text(alloc, pres, k) {
        Ok(text) => Ok(text),
        Err(TreesFault::Wide) => {
            let place = WidePlace::Trees { k };
            let text = wide_text(alloc, pres, &place)?;
            Err(Refusal {
                status: Status::Wide(place),
                text: Some(text),
            })
        }
        Err(TreesFault::Memory) => Err(Refusal::from(Status::Memory)),
    }
}
