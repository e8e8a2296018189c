//! Names of generators.

ghost use Rattle.std.specs.Prelude.{◌≡◌, ◌++◌, OnOk, string_bytes};
ghost use Rattle.compile_text.specs.Lines.{name_at, three_names};

use crate::Memory;
use nil_pres::Presentation;

/// Appends a generator's name, and nothing where there is none.
pub(crate) fn put_name(text: &mut String, pres: &Presentation, k: u32) -> Result<(), Memory>
    ensures { OnOk result (string_bytes text.new
        ≡ string_bytes text.old ++ name_at pres.now.names k) }
{
    if k == 0 {
        return Ok(());
    }
    if pres.count() < k {
        return Ok(());
    }
    text.push_str(pres.name(k))
}

/// Appends three names, with a space between.
pub(crate) fn put_names(
    text: &mut String,
    pres: &Presentation,
    k: u32,
    j: u32,
    i: u32,
) -> Result<(), Memory>
    ensures { OnOk result (string_bytes text.new
        ≡ string_bytes text.old ++ three_names pres.now.names k j i) }
{
    put_name(text, pres, k)?;
    text.push_str(" ")?;
    put_name(text, pres, j)?;
    text.push_str(" ")?;
    put_name(text, pres, i)
}
