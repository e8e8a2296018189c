//! Finite sums.

ghost use Rattle.std.specs.Prelude.{◌≡◌, ℕ, ◌+◌, ◌<◌, ◌≤◌, ℤ, ◌+ℤ◌, ◌*ℤ◌};
ghost use Rattle.integer.specs.Sums.{sum_from};

/// A sum depends on its summands alone, is linear in them, and is cut anywhere.
pub fn finite_sums()
    ensures same { (start : ℕ) → (n : ℕ) → (f : ℕ → ℤ) → (g : ℕ → ℤ)
        → ((k : ℕ) → start ≤ k → k < start + n → f k ≡ g k)
        → sum_from start n f ≡ sum_from start n g }
    ensures add { (start : ℕ) → (n : ℕ) → (f : ℕ → ℤ) → (g : ℕ → ℤ)
        → sum_from start n (λ k. f k +ℤ g k) ≡ sum_from start n f +ℤ sum_from start n g }
    ensures scale { (start : ℕ) → (n : ℕ) → (c : ℤ) → (f : ℕ → ℤ)
        → sum_from start n (λ k. c *ℤ f k) ≡ c *ℤ sum_from start n f }
    ensures append { (start : ℕ) → (m : ℕ) → (n : ℕ) → (f : ℕ → ℤ)
        → sum_from start (m + n) f ≡ sum_from start m f +ℤ sum_from (start + m) n f }
{}
