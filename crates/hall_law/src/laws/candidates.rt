//! Which of the identities of a table are enough.

ghost use Rattle.std.specs.Prelude.{ℕ, ◌≤◌, List, Contains};
ghost use Rattle.nil_word.specs.Congruence.{Relations};
ghost use Rattle.hall_law.specs.Table.{Operation, IsTable};
ghost use Rattle.hall_law.specs.Nucleus.{IsCandidate, OfCandidates, DoesStep, IsDrawn, KeepsRelations};
ghost use Rattle.hall_law.specs.FewSteps.{TwoOfThree, PowersStep, WordsPass, FactorsJoin, AddedSteps, LastSteps, LeftOverSteps, DerivedSteps, DrawnSteps, StepsToTable, TableToSteps};

/// Few of a candidate's step identities are enough. The vectors v with x (y v) = (x y) v for all x
/// and y are closed under products and quotients; so a generator steps, with no identity of its
/// own, where a right side has it once and its pair and all else in it step. (The right nucleus of
/// a loop.)
pub fn few_steps()
    ensures two_of_three { OfCandidates TwoOfThree }
    // The identity of a generator gives that of its inverse, and of each power.
    ensures powers { OfCandidates PowersStep }
    ensures words { OfCandidates WordsPass }
    ensures factors { OfCandidates FactorsJoin }
    ensures added { OfCandidates AddedSteps }
    ensures last { OfCandidates LastSteps }
    ensures left_over { OfCandidates LeftOverSteps }
    ensures derived { OfCandidates DerivedSteps }
    ensures drawn { (rels : Relations) (level : ℕ) (f : Operation)
        → IsCandidate rels.count level f → DrawnSteps rels level f }
    ensures all { (rels : Relations) (level : ℕ) (f : Operation)
        → IsCandidate rels.count level f → StepsToTable rels level f }
    // Nothing of it is too much.
    ensures needed { (rels : Relations) (level : ℕ) (f : Operation) → TableToSteps rels level f }
    // What is walked is chosen by the presentation alone.
    ensures table { (rels : Relations) (level : ℕ) (f : Operation) (walked : List ℕ)
        → IsCandidate rels.count level f → KeepsRelations rels level f
        → ((m : ℕ) → level ≤ m → m ≤ rels.count → Contains walked m
        → DoesStep rels.count level f m)
        → ((m : ℕ) → level ≤ m → m ≤ rels.count → IsDrawn rels level (Contains walked) m)
        → IsTable rels level f }
{}
