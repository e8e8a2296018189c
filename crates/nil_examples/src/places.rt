//! The places above the diagonal of a matrix.

ghost use Rattle.std.specs.Prelude.{◌≡◌, ◌++◌, ◌<◌, ◌≤◌, length, IfOk, OnOk};
ghost use Rattle.nil_examples.specs.Places.{diagonal, places, number_of, commutator, commutators};

use nil_pres::Syllable;
use std::alloc::{AllocError, Global};

/// A place of a matrix, from 1.
#[derive(Clone, Copy)]
pub struct Place {
    pub row: u32,
    pub column: u32,
}

/// The places above the diagonal of a matrix with `m` rows, diagonal by diagonal.
pub(crate) fn places(alloc: Global, m: u32) -> Result<Vec<Place>, AllocError>
    requires least { 1 ≤ m }
    requires most { m ≤ 10 }
    ensures { IfOk result (λ v. v.items ≡ places m) }
{
    let mut places = Vec::new(alloc);
    for d in 0..m - 1 {
        push_diagonal(&mut places, m, d + 1)?;
    }
    Ok(places)
}

/// Appends the places at a distance from the diagonal.
fn push_diagonal(places: &mut Vec<Place>, m: u32, d: u32) -> Result<(), AllocError>
    requires below { d < m }
    requires most { m ≤ 10 }
    ensures { OnOk result (places.new.items ≡ places.old.items ++ diagonal m d) }
{
    for p in 0..m - d {
        places.push(Place {
            row: p + 1,
            column: p + 1 + d,
        })?;
    }
    Ok(())
}

/// The number of a place, from 1; 0 where it isn't there.
fn number(places: &[Place], row: u32, column: u32) -> u32
    requires { length places.now ≤ 48 }
    ensures { result ≡ number_of places.now row column }
{
    match places
        .iter()
        .position(|place| place.row == row && place.column == column)
    {
        Some(index) => index as u32 + 1,
        None => 0,
    }
}

/// What the commutator of a generator with an earlier one is equal to, by their numbers, where they
/// don't commute.
pub(crate) fn commutators(places: &[Place], j: u32, i: u32) -> Option<Syllable>
    requires few { length places.now ≤ 48 }
    requires least { 1 ≤ i }
    requires below { i < j }
    requires most { j ≤ length places.now }
    ensures { result ≡ commutators places.now i j }
{
    let earlier = places[i as usize - 1];
    let later = places[j as usize - 1];
    commutator(places, earlier, later)
}

/// The same by their places.
fn commutator(places: &[Place], earlier: Place, later: Place) -> Option<Syllable>
    requires { length places.now ≤ 48 }
    ensures { result ≡ commutator places.now earlier later }
{
    if earlier.column == later.row {
        Some(Syllable {
            number: number(places, earlier.row, later.column),
            exp: -1,
        })
    } else if later.column == earlier.row {
        Some(Syllable {
            number: number(places, later.row, earlier.column),
            exp: 1,
        })
    } else {
        None
    }
}
