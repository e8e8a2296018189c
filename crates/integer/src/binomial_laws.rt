//! Binomial coefficients over the integers.

ghost use Rattle.std.specs.Prelude.{◌≡◌, ◌<◌, ◌+◌, ◌-◌, ◌*◌, ℕ, ℤ, pos, ◌+ℤ◌, ◌-ℤ◌, ◌*ℤ◌, max, min};
ghost use Rattle.integer.specs.Binomial.{choose, ways};
ghost use Rattle.integer.specs.Sums.{sum_from};

/// `x` over 0 is 1, and each coefficient follows from the one before. The clauses `first` and `next` determine them.
pub fn binomials()
    ensures first { (x : ℤ) → choose x 0 ≡ pos 1 }
    ensures next { (x : ℤ) → (m : ℕ) → choose x (m + 1) *ℤ pos (m + 1) ≡ choose x m *ℤ (x -ℤ pos m) }
    ensures pascal { (x : ℤ) → (m : ℕ) → choose (x +ℤ pos 1) (m + 1) ≡ choose x m +ℤ choose x (m + 1) }
    ensures past { (n : ℕ) → (m : ℕ) → n < m → choose (pos n) m ≡ pos 0 }
    ensures natural { (n : ℕ) → (m : ℕ) → choose (pos n) m ≡ pos (ways n m) }
{}

/// The product of two binomial coefficients of `x` is a sum of binomial coefficients of `x`.
pub fn product_rule()
    ensures { (a : ℕ) → (b : ℕ) → (x : ℤ) → choose x a *ℤ choose x b ≡ sum_from (max a b)
        (min a b + 1) (λ k. pos (ways k a * ways a (k - b)) *ℤ choose x k) }
{}
