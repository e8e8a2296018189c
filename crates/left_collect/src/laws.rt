//! What a letter makes of the words that it goes past, for every list of right sides.

ghost use Rattle.std.specs.Prelude.{◌≡◌, ℕ, ◌+◌, ◌<◌, ◌≤◌, List, [], ◌∷◌, ◌++◌, map};
ghost use Rattle.nil_word.specs.declared.letter.Letter.{Letter};
ghost use Rattle.nil_word.specs.Words.{up, down, inverse, IsWordIn};
ghost use Rattle.nil_word.specs.Congruence.{Relations, IsAbove, Congruent};
ghost use Rattle.nil_word.specs.Expressions.{raised, joined};
ghost use Rattle.nil_word.specs.Factors.{Factor, word_of};
ghost use Rattle.left_collect.specs.Conjugates.{image, conjugated};

/// A word of later generators goes past a letter as its image, whether the presentation is
/// consistent or not. The word that a generator becomes past an inverse is made of one piece for
/// each syllable of the right side.
pub fn conjugates()
    ensures generator { (rels : Relations) (a : Letter) (k : ℕ) → IsAbove rels → 1 ≤ a.number
        → a.number < k → k ≤ rels.count
        → Congruent rels a.number (up k ∷ a ∷ []) (a ∷ conjugated rels a k) }
    ensures word { (rels : Relations) (a : Letter) (w : List Letter) → IsAbove rels
        → 1 ≤ a.number → a.number ≤ rels.count → IsWordIn (a.number + 1) rels.count w
        → Congruent rels a.number (w ++ a ∷ []) (a ∷ image (conjugated rels a) w) }
    ensures syllables { (rels : Relations) (g k : ℕ) (right : List Factor) → IsAbove rels → 1 ≤ g
        → g < k → k ≤ rels.count → rels.right g k ≡ word_of right
        → conjugated rels (down g) k ≡ up k ∷ inverse
        (joined (map (λ s. raised (conjugated rels (down g) s.number) s.exp) right)) }
{}
