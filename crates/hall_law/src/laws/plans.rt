//! From the table of the level above to the table of a level, and what exists.

ghost use Rattle.nil_word.specs.Congruence.{Relations, IsConsistent};
ghost use Rattle.hall_law.specs.Table.{IsPresentation};
ghost use Rattle.nil_word.specs.Factors.{Factoring, IsFactored};
ghost use Rattle.hall_law.specs.Plan.{DoAgree};
ghost use Rattle.hall_law.specs.Uniqueness.{OfTables};
ghost use Rattle.hall_law.specs.Existence.{HasPowers, AgreeOnPowers, HasImages, HasTables};
ghost use Rattle.hall_law.specs.Agreement.{OfPlans, OfAgreeing, FirstWaysStand, SecondWaysStand, PhiJoins, PhiTakesOnce, ImagesMove, SumsToTable, StepsToImages, KeepsShape};

/// Both ways of an overlap, with 1 at the level's generator, stand for a_k a_j a_i, whether they
/// agree or not. So they agree in a consistent presentation. (The consistency check of polycyclic
/// presentations, in the direction that finds an inconsistency.)
pub fn overlaps()
    ensures first { OfPlans FirstWaysStand }
    ensures second { OfPlans SecondWaysStand }
    ensures agree { OfPlans
        (λ rels factors i f Q. IsConsistent rels 1 → DoAgree rels factors i f Q) }
{}

/// Where the overlaps of a level agree, its generator acts on the group above by an automorphism,
/// phi. The images that the sum plan makes are those of the generators under its powers, and the
/// summed table is a multiplication table of the level. (The consistency check, in the other
/// direction: the level's group extends the group above by an infinite cyclic group.)
pub fn agreement()
    ensures joins { OfAgreeing PhiJoins }
    ensures takes_once { OfAgreeing PhiTakesOnce }
    ensures images { OfAgreeing ImagesMove }
    ensures table { OfAgreeing SumsToTable }
    // Images may be given entry by entry, as sums of steps give them, agreement or not.
    ensures stepped { OfPlans StepsToImages }
{}

/// The summed table has the shape of a table, whether the overlaps agree or not.
pub fn shaped()
    ensures { OfPlans KeepsShape }
{}

/// The vectors of a table's level have powers by it, and only one each, so no law over all powers
/// is empty. Where the overlaps agree, images exist too. (Powers in a group.)
pub fn powers_exist()
    ensures powers { OfTables HasPowers }
    ensures one { OfTables AgreeOnPowers }
    ensures images { OfAgreeing HasImages }
{}

/// A consistent presentation has a table of each level, so no premise above is empty. (Hall's
/// theorem without its polynomials.)
pub fn tables_exist()
    ensures { (rels : Relations) (factors : Factoring) → IsPresentation rels
        → IsFactored rels factors → IsConsistent rels 1 → HasTables rels }
{}
