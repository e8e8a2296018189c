//! What the identities of a table say.

ghost use Rattle.std.specs.Prelude.{◌≡◌, ◌↔◌, ℕ, ℤ, List, length};
ghost use Rattle.binom_poly.specs.declared.term.Term.{Term};
ghost use Rattle.binom_poly.specs.Polynomial.{IsPolynomial, value_of};
ghost use Rattle.poly_subst.specs.declared.assign.Assign.{Assign};
ghost use Rattle.poly_subst.specs.Substitute.{replaced, substituted, SubstituteOverflows};
ghost use Rattle.nil_pres.specs.Presented.{Presented, IsPresented};
ghost use Rattle.nil_pres.specs.Relations.{relations_of};
ghost use Rattle.hall_law.specs.Table.{IsTable};
ghost use Rattle.hall_table.specs.Tabled.{Tabled, IsTabled, last_of};
ghost use Rattle.hall_table.specs.Values.{values};
ghost use Rattle.identity_check.specs.Assigned.{ArePolynomials};
ghost use Rattle.nil_word.specs.Congruence.{Relations};
ghost use Rattle.identity_check.specs.declared.identity.Identity.{Identity};
ghost use Rattle.identity_check.specs.declared.failure.Failure.{Failure};
ghost use Rattle.identity_check.specs.Events.{Event, Fails, HaveEqualSides};
ghost use Rattle.identity_check.specs.Events.Event.{tries};
ghost use Rattle.identity_check.specs.Failures.{FailsFirst};
ghost use Rattle.identity_check.specs.Evidence.{IsEvidence};
ghost use Rattle.identity_check.specs.Points.{AreEqualAt, DifferSomewhere, IsIdentityOf, IsMade};

use hall_table::presentations::relations;

/// A substitution that doesn't overflow gives the polynomial whose values are those at what is put
/// in.
pub fn substitution()
    ensures form { (p : List Term) (list : List Assign) → IsPolynomial p → ArePolynomials list
        → ¬ SubstituteOverflows p list → IsPolynomial (substituted p list) }
    ensures value { (p : List Term) (list : List Assign) → IsPolynomial p → ArePolynomials list
        → ¬ SubstituteOverflows p list
        → (a : ℕ → ℤ) → value_of a (substituted p list) ≡ value_of (replaced list a) p }
{}

/// An identity that isn't wide fails exactly where it fails at some integer point; where all hold,
/// each holds at every integer point.
pub fn points()
    ensures fails { (rels : Relations) (t : Tabled) (id : Identity) → IsTabled t
        → IsIdentityOf t id → IsMade t id → Fails rels t (tries id) ↔ DifferSomewhere rels t id }
    ensures holds { (rels : Relations) (t : Tabled) (id : Identity) → HaveEqualSides rels t
        → IsIdentityOf t id → (a : ℕ → ℤ) → AreEqualAt rels t id a }
{}

/// The point and the numbers of a failure show it.
pub fn evidence()
    ensures { (rels : Relations) (t : Tabled) (es : List Event) (f : Failure)
        → FailsFirst rels t es f → IsEvidence rels t f }
{}

/// A table each of whose identities holds, and none of them wide, multiplies in the presentation.
pub fn accepted()
    ensures { (pres : Presented) (t : Tabled) → IsPresented pres → IsTabled t
        → last_of t ≡ length pres.names → HaveEqualSides (relations_of pres) t
        → IsTable (relations_of pres) t.level (values t) }
{
    relations();
}
