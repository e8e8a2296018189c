//! Laws of names.

ghost use Rattle.std.specs.Prelude.{◌≡◌, ℕ, ◌<◌, List, [], length, position, slice_index_or, Some};
ghost use Rattle.std.specs.Str.{bytes_eq};
ghost use Rattle.nil_pres.specs.Presented.{AreNames};

/// Of names that are all different each is found at its own place.
pub fn names()
    ensures { (names : List (List ℕ)) (k : ℕ) → AreNames names → k < length names
        → position (bytes_eq (slice_index_or names k [])) names ≡ Some k }
{}
