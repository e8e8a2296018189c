//! What is known of counts.

ghost use Rattle.std.specs.Prelude.{◌≡◌, ℕ, List};
ghost use Rattle.nil_pres.specs.Presented.{IsPresented};
ghost use Rattle.hall_table.specs.Tabled.{IsTabled};
ghost use Rattle.hall_table.specs.Multiplies.{Paired, IsChecked};
ghost use Rattle.load_tally.specs.Tallies.{IsTally, tally_of};

use group_eval::laws::replies;
use word_text::laws::readings;

/// By a table of level 1 that multiplies in its presentation the counts that are computed are those
/// of the right replies.
pub fn right_tallies()
    ensures { (c : Paired) (lines : List (List ℕ)) → IsPresented c.pres → IsTabled c.table
        → IsChecked c → c.table.level ≡ 1 → IsTally c lines (tally_of c lines) }
{
    readings();
    replies();
}
