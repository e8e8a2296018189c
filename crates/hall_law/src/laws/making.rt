//! What makes a presentation, and what is a multiplication table.

ghost use Rattle.std.specs.Prelude.{◌≡◌, ℕ, Bool, ◌≤◌, ◌<◌, ℤ, List};
ghost use Rattle.nil_word.specs.Congruence.{Relations, IsAbove};
ghost use Rattle.nil_word.specs.Central.{IsCentralBy};
ghost use Rattle.nil_word.specs.Exponents.{entry};
ghost use Rattle.hall_law.specs.Table.{IsClosed, IsPresentation, IsTable, base, from_entries};
ghost use Rattle.nil_word.specs.Factors.{Factoring, word_of, IsAscending, IsFactored};
ghost use Rattle.hall_law.specs.Quadratic.{quadratic};
ghost use Rattle.hall_law.specs.Shape.{IsShaped};

/// Right sides that are ascending powers of generators above their pair make a presentation.
/// (The normal form of nilpotent presentations.)
pub fn ascending()
    ensures { (rels : Relations) (factors : Factoring)
        → ((j l : ℕ) → 1 ≤ j → j < l → l ≤ rels.count
        → (rels.right j l ≡ word_of (factors j l)) × IsAscending l rels.count (factors j l))
        → IsPresentation rels × IsFactored rels factors }
{}

/// An operation that is given by its entries keeps to the vectors of its level, and has them.
pub fn entries()
    ensures closed { (n level : ℕ) (g : ℕ → List ℤ → List ℤ → ℤ) → level ≤ n
        → IsClosed n level (from_entries n level g) }
    ensures entry { (n level : ℕ) (g : ℕ → List ℤ → List ℤ → ℤ) (x y : List ℤ) (k : ℕ)
        → 1 ≤ k → level ≤ k → k ≤ n
        → entry (from_entries n level g x y) k ≡ g k x y }
{}

/// The quadratic table of a central presentation is a multiplication table of level 1. (In a group
/// of class 2 the commutator is bilinear.)
pub fn central()
    ensures { (rels : Relations) (test : ℕ → Bool)
        → IsAbove rels → 1 ≤ rels.count → IsCentralBy rels test
        → IsTable rels 1 (quadratic rels) }
{}

/// The table of the last level adds the last entries, so it has the shape of a table. (The last
/// generator gives the integers.)
pub fn last()
    ensures table { (rels : Relations) → 1 ≤ rels.count
        → IsTable rels rels.count (base rels.count) }
    ensures shape { (n : ℕ) → 1 ≤ n → IsShaped n n (base n) }
{}
