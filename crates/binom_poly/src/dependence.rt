//! Laws of dependence: the variables that a polynomial in unique form holds are known from its
//! values alone.

ghost use Rattle.std.specs.Prelude.{◌≡◌, ◌≢◌, ◌+ℤ◌, ℕ, ℤ, Bool, false, List, All};
ghost use Rattle.binom_poly.specs.declared.term.Term.{Term};
ghost use Rattle.binom_poly.specs.Monomial.{exponent_of};
ghost use Rattle.binom_poly.specs.Polynomial.{IsPolynomial, value_of};
ghost use Rattle.binom_poly.specs.Dependence.{DependsOnly, HasOnly, IsTwoAnd};

/// No monomial holds a variable on which the values don't depend. Where the values depend only on
/// variables with a test, each monomial has only such variables.
pub fn variables_held()
    ensures one { (v : ℕ) (p : List Term) → IsPolynomial p
        → ((a b : ℕ → ℤ) → ((w : ℕ) → w ≢ v → a w ≡ b w) → value_of a p ≡ value_of b p)
        → All (λ t. exponent_of t.monomial v ≡ 0) p }
    ensures some { (test : ℕ → Bool) (p : List Term) → IsPolynomial p
        → DependsOnly test (λ a. value_of a p) → All (λ t. HasOnly test t.monomial) p }
{}

/// Where the values are those of two variables plus what depends only on variables with a test
/// that the two don't meet, the polynomial is the two plus terms in variables with the test.
pub fn two_and_others()
    ensures { (test : ℕ → Bool) (v w : ℕ) (g : (ℕ → ℤ) → ℤ) (p : List Term) → IsPolynomial p
        → v ≢ w → test v ≡ false → test w ≡ false
        → DependsOnly test g → ((a : ℕ → ℤ) → value_of a p ≡ a v +ℤ a w +ℤ g a)
        → IsTwoAnd test v w p }
{}
