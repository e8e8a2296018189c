//! What no proposer can change.

ghost use Rattle.std.specs.Prelude.{ℕ, List};
ghost use Rattle.nil_pres.specs.Presented.{Presented, IsPresented};
ghost use Rattle.hall_compile.specs.declared.outcome.Outcome.{Outcome};
ghost use Rattle.hall_compile.specs.Deciding.{AreAlike, IsWideSum};
ghost use Rattle.hall_compile.specs.Outcomes.{IsOutcome};
ghost use Rattle.hall_compile.specs.Proposals.{Proposal};

use hall_law::laws::last;
use hall_table::laws::one_table;
use identity_check::laws::accepted;

/// Whatever two lists of proposers give for a presentation, its outcomes are alike, unless a sum
/// plan overflows with one of them.
pub fn outcomes()
    ensures { (p : Presented) (os others : ℕ → List Proposal) (r s : Outcome) → IsPresented p
        → IsOutcome p os r → IsOutcome p others s → ¬ IsWideSum r → ¬ IsWideSum s → AreAlike r s }
{
    accepted();
    last();
    one_table();
}
