//! What is known of replies by the collector.

ghost use Rattle.std.specs.Prelude.{ℕ, List};
ghost use Rattle.nil_pres.specs.Presented.{Presented, IsPresented};
ghost use Rattle.collect_text.specs.Replies.{reply};
ghost use Rattle.collect_text.specs.Right.{IsCollected};

use word_text::laws::readings;

/// The reply that is computed is the right one, whether the presentation is consistent or not.
pub fn collected_replies()
    ensures { (p : Presented) (line : List ℕ) → IsPresented p → IsCollected p line (reply p line) }
{
    readings();
}
