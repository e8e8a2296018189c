//! The integers as a ring.

ghost use Rattle.std.specs.Prelude.{◌≡◌, ◌⊎◌, ℤ, pos, ◌+ℤ◌, ◌*ℤ◌};

/// Multiplication is commutative.
pub fn commutes()
    ensures { (a : ℤ) → (b : ℤ) → a *ℤ b ≡ b *ℤ a }
{}

/// Multiplication is associative.
pub fn associates()
    ensures { (a : ℤ) → (b : ℤ) → (c : ℤ) → (a *ℤ b) *ℤ c ≡ a *ℤ (b *ℤ c) }
{}

/// Multiplication distributes over addition.
pub fn distributes()
    ensures { (a : ℤ) → (b : ℤ) → (c : ℤ) → (a +ℤ b) *ℤ c ≡ a *ℤ c +ℤ b *ℤ c }
{}

/// A product is 0 only where a factor is.
pub fn has_no_zero_divisors()
    ensures { (a : ℤ) → (b : ℤ) → a *ℤ b ≡ pos 0 → (a ≡ pos 0) ⊎ (b ≡ pos 0) }
{}
