//! Laws at small presentations.

ghost use Rattle.std.specs.Prelude.{◌≡◌, pos, [], ◌∷◌};
ghost use Rattle.nil_word.specs.Congruence.{IsConsistent};
ghost use Rattle.hall_law.specs.Plan.{Powers, IsPower, put, first_way, second_way};
ghost use Rattle.hall_law.specs.Quadratic.{quadratic};
ghost use Rattle.nil_word.specs.Examples.{heisenberg};
ghost use Rattle.hall_law.specs.Examples.{bent, bent_factors, straight};

/// Small instances, worked by hand.
pub fn examples()
    // (1 2 3)(4 5 6) in the Heisenberg group: 3 + 6 and the product of 2 and 4.
    ensures product { quadratic heisenberg (pos 1 ∷ pos 2 ∷ pos 3 ∷ []) (pos 4 ∷ pos 5 ∷ pos 6 ∷ [])
        ≡ pos 5 ∷ pos 7 ∷ pos 17 ∷ [] }
    // With [a_3,a_2] = a_4 and [a_4,a_1] = a_5 the two ways of the overlap (1, 2, 3) differ.
    ensures first { (Q : Powers) → IsPower 5 2 (quadratic straight) Q
        → put (first_way bent bent_factors 1 (quadratic straight) Q 2 3) 1 (pos 1)
        ≡ pos 1 ∷ pos 1 ∷ pos 1 ∷ pos 1 ∷ pos 1 ∷ [] }
    ensures second { put (second_way bent 1 (quadratic straight) 2 3) 1 (pos 1)
        ≡ pos 1 ∷ pos 1 ∷ pos 1 ∷ pos 1 ∷ pos 0 ∷ [] }
    ensures inconsistent { ¬ IsConsistent bent 1 }
{}
