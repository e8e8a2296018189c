//! What is known of replies.

ghost use Rattle.std.specs.Prelude.{◌≡◌, ℕ, List};
ghost use Rattle.nil_pres.specs.Presented.{IsPresented};
ghost use Rattle.hall_table.specs.Tabled.{IsTabled};
ghost use Rattle.hall_table.specs.Multiplies.{Paired, IsChecked};
ghost use Rattle.query_replies.specs.EqualReplies.{EqualRepliesMeanEqualWords};
ghost use Rattle.query_replies.specs.Replies.{reply};
ghost use Rattle.query_replies.specs.Right.{IsReply};

use nil_word::laws::congruence;
use word_text::laws::readings;

/// By a table of level 1 that multiplies in its presentation the reply that is computed is the
/// right one.
pub fn right_replies()
    ensures { (c : Paired) (line : List ℕ) → IsPresented c.pres → IsTabled c.table
        → IsChecked c → c.table.level ≡ 1 → IsReply c line (reply c line) }
{
    readings();
    group_eval::laws::replies();
}

/// Two lines that ask for elements, neither of them wide, get equal replies exactly if the
/// relations make their words equal.
pub fn equal_replies()
    ensures { EqualRepliesMeanEqualWords }
{
    readings();
    congruence();
}
