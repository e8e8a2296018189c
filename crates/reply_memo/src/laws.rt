//! What is known of the pairs that are kept.

ghost use Rattle.std.specs.Prelude.{◌≡◌, ◌⊎◌, ◌↔◌, ℕ, List, Contains, Some};
ghost use Rattle.reply_memo.specs.Kept.{Kept, kept, kept_for, in_front};
ghost use Rattle.reply_memo.specs.Memo.{after_keeping};

/// Each pair that is there after one was kept is that one or was there before, finding a line
/// leaves the same pairs, and the reply that is given for a line is kept for it.
pub fn kept_pairs()
    ensures keeps { (line reply : List ℕ) (pairs : List Kept) (k : Kept)
        → Contains (after_keeping line reply pairs) k
        → (k ≡ kept line reply) ⊎ Contains pairs k }
    ensures finds { (line : List ℕ) (pairs : List Kept) (k : Kept)
        → Contains (in_front line pairs) k ↔ Contains pairs k }
    ensures replies { (line reply : List ℕ) (pairs : List Kept)
        → kept_for line pairs ≡ Some reply → Contains pairs (kept line reply) }
{}
