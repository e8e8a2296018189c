//! Entries of a vector to which a letter is appended.

ghost use Rattle.std.specs.Prelude.{◌≡◌, ℕ, ◌+◌, ◌-◌, ◌^◌, ◌<◌, ◌≤◌, pos, unsigned_abs, ◌++◌, length, take, replicate, slice_index_or, All};
ghost use Rattle.nil_word.specs.Exponents.{signed};
ghost use Rattle.nil_pres.specs.Relations.{relations_of};
ghost use Rattle.left_collect.specs.Conjugates.{commutes};
ghost use Rattle.left_collect.specs.Collected.{behind, counted};

use nil_pres::Presentation;
use nil_word::{Letter, Vector};

/// As many generators as a presentation has at most.
pub(crate) const MOST: usize = 48;

/// Whether a letter commutes with all letters behind its generator.
pub(crate) fn is_free(pres: &Presentation, v: &Vector, generator: u32) -> bool
    requires least { 1 ≤ generator }
    requires most { generator ≤ length pres.now.names }
    requires entries { length v.now ≡ length pres.now.names }
    ensures { result ≡ commutes (relations_of pres.now) generator (behind v.now generator) }
{
    let count = pres.count();
    for k in generator + 1..count + 1 {
        if v.at(k) != 0 && !pres.right_side(k, generator).is_empty() {
            return false;
        }
    }
    true
}

/// Adds the sign of a letter at its generator.
pub(crate) fn count_letter(v: &mut Vector, letter: Letter)
    requires least { 1 ≤ letter.number }
    requires most { letter.number ≤ length v.old }
    requires within { All (λ e. unsigned_abs e ≤ 2 ^ 24) v.old }
    ensures { v.new ≡ counted v.old letter }
{
    v.set(letter.number, v.at(letter.number) + sign(letter));
}

/// The sign of a letter.
fn sign(letter: Letter) -> i128
    ensures { result ≡ signed letter.up (pos 1) }
{
    if letter.up { 1 } else { -1 }
}

/// Sets the entries behind a generator to 0.
pub(crate) fn clear_behind(v: &mut Vector, generator: u32)
    requires few { length v.old ≤ 48 }
    requires most { generator ≤ length v.old }
    ensures { v.new ≡ take generator v.old ++ replicate (length v.old - generator) (pos 0) }
{
    let count = v.entries().len() as u32;
    for k in generator + 1..count + 1 {
        v.set(k, 0);
    }
}

/// The entries of a vector, for a while.
pub(crate) fn entries_of(v: &Vector) -> [i128; MOST]
    requires { length v.now ≤ 48 }
    ensures { (k : ℕ) → k < length v.now
        → slice_index_or result k (pos 0) ≡ slice_index_or v.now k (pos 0) }
{
    let mut saved = [0i128; MOST];
    for (place, entry) in v.entries().iter().enumerate() {
        saved[place] = *entry;
    }
    saved
}
