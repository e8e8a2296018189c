//! Right sides in their rows.

ghost use Rattle.nil_pres.specs.Rights.{syllable_fault, AreUpTo, IsRight};
ghost use Rattle.nil_pres.specs.Views.{row_of, rows_of};
ghost use Rattle.std.specs.Prelude.{◌≡◌, ℕ, ◌+◌, None, IfOk, IfNone, option_map, replicate};

use super::Memory;
use super::relation_fault::RelationFault;
use super::syllable::Syllable;
use std::alloc::Global;

/// The first fault of a right side behind a generator.
pub(crate) fn first_syllable_fault(above: u32, right: &[Syllable]) -> Option<RelationFault>
    ensures fault { result ≡ syllable_fault 0 above right.now }
    ensures right { (high : ℕ) → AreUpTo high right.now
        → IfNone result (IsRight above high right.now) }
{
    let mut last = above;
    for (place, syllable) in right.iter().enumerate() {
        if syllable.number <= last {
            return Some(RelationFault::Above(place));
        }
        if syllable.exp == i64::MIN {
            return Some(RelationFault::Number(place));
        }
        if syllable.exp == 0 {
            return Some(RelationFault::Zero(place));
        }
        last = syllable.number;
    }
    None
}

/// Entries for the pairs of a new generator.
pub(crate) fn empty_row(alloc: Global, count: usize) -> Result<Vec<Option<Vec<Syllable>>>, Memory>
    ensures { IfOk result (λ row. row.items ≡ replicate count None) }
{
    let mut row = Vec::new(alloc);
    for _ in 0..count {
        row.push(None)?;
    }
    Ok(row)
}

/// The same right sides in equal rows.
pub(crate) fn copy_rows(
    alloc: Global,
    rows: &Vec<Vec<Option<Vec<Syllable>>>>,
) -> Result<Vec<Vec<Option<Vec<Syllable>>>>, Memory>
    ensures { IfOk result (λ copy. rows_of copy ≡ rows_of rows.now) }
{
    let mut copy = Vec::new(alloc);
    for row in rows {
        copy.push(copy_row(alloc, row)?)?;
    }
    Ok(copy)
}

/// The same right sides.
fn copy_row(
    alloc: Global,
    row: &Vec<Option<Vec<Syllable>>>,
) -> Result<Vec<Option<Vec<Syllable>>>, Memory>
    ensures { IfOk result (λ copy. row_of copy ≡ row_of row.now) }
{
    let mut copy = Vec::new(alloc);
    for entry in row {
        copy.push(copy_entry(alloc, entry)?)?;
    }
    Ok(copy)
}

/// The same right side, where there is one.
fn copy_entry(alloc: Global, entry: &Option<Vec<Syllable>>) -> Result<Option<Vec<Syllable>>, Memory>
    ensures { IfOk result (λ copy. option_map (λ right. right.items) copy ≡ option_map
        (λ right. right.items) entry.now) }
{
    match entry {
        Some(right) => Ok(Some(Vec::from_slice(alloc, right)?)),
        None => Ok(None),
    }
}
