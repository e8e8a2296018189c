//! What a checked table gives.

ghost use Rattle.std.specs.Prelude.{◌≡◌, ℕ, ◌+◌, ◌≤◌, ℤ, ◌+ℤ◌, List, All};
ghost use Rattle.nil_word.specs.Words.{IsVector};
ghost use Rattle.nil_word.specs.Congruence.{IsConsistent};
ghost use Rattle.nil_word.specs.Exponents.{entry};
ghost use Rattle.nil_pres.specs.Presented.{Presented, IsPresented};
ghost use Rattle.binom_poly.specs.declared.term.Term.{Term};
ghost use Rattle.binom_poly.specs.Dependence.{DependsOnly};
ghost use Rattle.binom_poly.specs.Polynomial.{IsPolynomial, value_of};
ghost use Rattle.binom_poly.specs.Variable.{y_of};
ghost use Rattle.hall_law.specs.Table.{Operation};
ghost use Rattle.hall_law.specs.Shape.{IsShaped};
ghost use Rattle.hall_law.specs.Uniqueness.{ProductsStand, Associates, SolvesOnce};
ghost use Rattle.hall_table.specs.Multiplies.{IsChecked, OfChecked};
ghost use Rattle.hall_table.specs.Shape.{AreLower, HasShape, is_lower};
ghost use Rattle.hall_table.specs.Tabled.{Tabled, IsTabled, last_of};
ghost use Rattle.hall_table.specs.Tail.{tail_of};
ghost use Rattle.hall_table.specs.Values.{point_of, values};

use super::presentations::relations;
use super::table::GENERATOR_LIMIT;
use hall_law::laws::uniqueness;

/// With a checked table the vectors of its level are the elements of the presentation's group at
/// that level, each of them once, and the table is their product.
pub fn group()
    // Different vectors stand for different elements.
    ensures consistent { OfChecked (λ rels level f. IsConsistent rels level) }
    // The product stands for the two ordered words joined.
    ensures product { OfChecked ProductsStand }
    ensures associative { OfChecked Associates }
    // Each equation a x = b has exactly one solution.
    ensures solution { OfChecked SolvesOnce }
{
    uniqueness();
    relations();
}

/// Two tables of one level that multiply in one presentation are equal, polynomial by polynomial.
pub fn one_table()
    ensures { (pres : Presented) (s t : Tabled) → IsPresented pres → IsTabled s → IsTabled t
        → IsChecked record { pres = pres; table = s } → IsChecked record { pres = pres; table = t }
        → s.level ≡ t.level → s ≡ t }
{
    uniqueness();
    relations();
}

/// Entry k of the product of x and y is `x_k + y_k` plus a part that the entries below k decide.
pub fn shaped()
    ensures { (t : Tabled) → IsTabled t → IsShaped (last_of t) t.level (values t) }
{}

/// On vectors of a higher level, the table from that level on has the entries of the old one from
/// there on. Lower entries may differ, by constant terms.
pub fn tail()
    ensures { (t : Tabled) (level : ℕ) → IsTabled t → t.level ≤ level → level ≤ last_of t
        → (x y : List ℤ) → IsVector (last_of t) level x → IsVector (last_of t) level y
        → (k : ℕ) → level ≤ k → k ≤ last_of t
        → entry (values (tail_of t level) x y) k ≡ entry (values t x y) k }
{}

/// The converse: a polynomial in unique form whose values are `x_k + y_k` plus a part that the
/// variables below k decide has the shape. So has one in variables of the level that gives entry k
/// of an operation of the shape.
pub fn of_shaped()
    ensures points { (level k : ℕ) (g : (ℕ → ℤ) → ℤ) (p : List Term) → k ≤ GENERATOR_LIMIT
        → IsPolynomial p → DependsOnly (is_lower level k) g
        → ((a : ℕ → ℤ) → value_of a p ≡ (a k +ℤ a (y_of k)) +ℤ g a)
        → HasShape level k p }
    ensures vectors { (n level k : ℕ) (f : Operation) (p : List Term) → 1 ≤ level → level ≤ k
        → k ≤ n → n ≤ GENERATOR_LIMIT → IsPolynomial p
        → All (λ t. AreLower level (n + 1) t.monomial) p → IsShaped n level f
        → ((x y : List ℤ) → IsVector n level x → IsVector n level y
        → value_of (point_of x y) p ≡ entry (f x y) k)
        → HasShape level k p }
{}
