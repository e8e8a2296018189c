//! What presentation files say.

ghost use Rattle.std.specs.Prelude.{◌≡◌, ◌↔◌, ℕ, List, Some, None};
ghost use Rattle.nil_pres.specs.Presented.{Presented};
ghost use Rattle.line_tokens.specs.declared.kind.Kind.{Kind};
ghost use Rattle.pres_text.specs.File.{IsFile};
ghost use Rattle.pres_text.specs.FirstFault.{first_fault};
ghost use Rattle.pres_text.specs.Relation.{Spelled, IsSpelled, spelled_by};

/// A file says exactly one presentation, or it has a first fault and says none.
pub fn files()
    ensures one { (file : List ℕ) (p q : Presented) → IsFile p file → IsFile q file → p ≡ q }
    ensures none { (file : List ℕ) (p : Presented) → IsFile p file → first_fault file ≡ None }
    ensures some { (file : List ℕ) → first_fault file ≡ None → (p : Presented) × IsFile p file }
{}

/// Tokens are read as a relation exactly where the grammar spells it, so a line has the fault of a
/// line that is no relation exactly where the grammar spells none.
pub fn relations()
    ensures spelled { (tokens : List Kind) (s : Spelled)
        → IsSpelled tokens s ↔ (spelled_by tokens ≡ Some s) }
    ensures none { (tokens : List Kind)
        → ((s : Spelled) → ¬ IsSpelled tokens s) ↔ (spelled_by tokens ≡ None) }
{}
