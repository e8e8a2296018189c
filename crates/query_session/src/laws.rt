//! What is known of sessions.

ghost use Rattle.std.specs.Prelude.{◌≡◌, ◌⊎◌, ℕ, List};
ghost use Rattle.std.specs.declared.option.Option.{Option};
ghost use Rattle.nil_word.specs.Congruence.{IsConsistent};
ghost use Rattle.nil_pres.specs.Presented.{Presented, IsPresented};
ghost use Rattle.nil_pres.specs.Relations.{relations_of};
ghost use Rattle.hall_table.specs.Multiplies.{Paired, IsChecked};
ghost use Rattle.hall_compile.specs.Proposals.{Proposal};
ghost use Rattle.session_io.specs.Asked.{Asked, Fed};
ghost use Rattle.query_session.specs.declared.status.Status.{Status};
ghost use Rattle.query_session.specs.declared.status.Status.TheVariants as s;
ghost use Rattle.query_session.specs.Commands.{IsSession};
ghost use Rattle.query_session.specs.Smooth.{IsSmooth};

use hall_law::laws::uniqueness;
use hall_table::presentations::relations;
use pres_text::laws::files;
use table_json::laws::texts;

/// A presentation with a table of level 1 that multiplies in it is consistent.
pub fn consistent()
    ensures { (c : Paired) → IsPresented c.pres → IsChecked c → c.table.level ≡ 1
        → IsConsistent (relations_of c.pres) 1 }
{
    relations();
    uniqueness();
}

/// A session that meets no fault answers all known queries over known files that nothing refuses, all
/// of them within their limits, or memory is wanting.
pub fn complete_runs()
    ensures { (os : Presented → ℕ → List Proposal) (limit : ℕ) (a : Asked) (f : Fed) (p : Presented)
        (status : Status) (old new : Option (List ℕ)) → IsSession os limit a f status old new
        → IsSmooth os limit a f p
        → (status ≡ s.WriteFault → ⊥) → (status ≡ s.Done) ⊎ (status ≡ s.Memory) }
{
    files();
    texts();
}
