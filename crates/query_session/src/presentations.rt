//! The presentation file of a command.

ghost use Rattle.std.specs.Prelude.{◌≡◌, ◌≤◌, ℕ, List, IfOk, IfErr};
ghost use Rattle.query_session.specs.Shown.{asked_of};
ghost use Rattle.query_session.specs.Opening.{HasRefused};
ghost use Rattle.query_session.specs.Presentations.{HasPresentation, IsFileRefused};

use super::limits::FILE_LIMIT;
use super::status::Status;
use nil_io::Shelf;
use nil_pres::Presentation;
use std::alloc::Global;

/// The presentation of a file, or the status that refuses it.
pub(crate) fn read_presentation<H: Shelf>(
    alloc: Global,
    name: &str,
    shelf: &mut H,
) -> Result<Presentation, Status>
    ensures read { (words : List (List ℕ)) → IfOk result (HasPresentation name.now
        (asked_of words H.contents H.faults H.longs shelf.old shelf.new)) }
    ensures refused { (words : List (List ℕ)) → IfErr result (HasRefused (IsFileRefused name.now)
        (asked_of words H.contents H.faults H.longs shelf.old shelf.new)) }
    ensures same { (n : List ℕ) → H.contents shelf.new n ≡ H.contents shelf.old n }
    ensures later { (n : List ℕ) → H.faults shelf.old n ≤ H.faults shelf.new n }
    ensures later_long { (n : List ℕ) (l : ℕ) → H.longs shelf.old n l ≤ H.longs shelf.new n l }
{
    let file = shelf.read(alloc, name, FILE_LIMIT)?;
    let pres = pres_text::read(alloc, &file)?;
    Ok(pres)
}
