//! The replies to the lines that were asked last.

ghost use Rattle.std.specs.Prelude.{◌≡◌, [], string_bytes, is_some, option_copied, IfOk, OnOk, OnErr, IsOk, IsSome, IsFalse};
ghost use Rattle.reply_memo.specs.Kept.{kept_for, in_front};
ghost use Rattle.reply_memo.specs.Memo.{IsMemo, after_keeping};

use super::room::ROOM;
use lru::LruCache;
use std::alloc::{AllocError, Global};
use std::marker::Model;
use std::num::NonZeroUsize;

/// The replies to the lines that were asked last. Contracts see lines with their replies, the most
/// recently used first.
#[derive(Drop)]
pub struct Answers {
    cache: LruCache<String, String>,
}

impl Model for Answers {
    ghost use Rattle.std.specs.Prelude.{◌≡◌, List};
    ghost use Rattle.reply_memo.specs.Entries.{pairs_of};
    ghost use Rattle.reply_memo.specs.Kept.{Kept};
    ghost use Rattle.reply_memo.specs.Memo.{IsMemo};
    ghost use Rattle.reply_memo.specs.Room.{room};

    ghost Value = { List Kept };

    ghost view = { λ a. pairs_of a.cache.entries };

    ghost invariant = { λ a. IsMemo (pairs_of a.cache.entries) × (a.cache.cap ≡ room) };
}

impl Answers {
    /// No reply yet.
    pub fn new(alloc: Global) -> Result<Answers, AllocError>
        ensures { IfOk result (λ answers. answers ≡ []) }
    {
        let room = NonZeroUsize::new(ROOM).unwrap();
        let cache = LruCache::new(alloc, room)?;
        Ok(Answers { cache })
    }

    /// Whether a reply is kept for the line, which is then the most recently used.
    pub fn find(&mut self, line: &str) -> bool
        ensures found { result ≡ is_some (kept_for line.now self.old) }
        ensures pairs { self.new ≡ in_front line.now self.old }
        ensures same { IsFalse result → self.new ≡ self.old }
        ensures memo { IsMemo self.new }
    {
        self.cache.promote(line)
    }

    /// The reply that is kept for the line.
    pub fn reply(&self, line: &str) -> Option<&str>
        ensures { option_copied result ≡ kept_for line.now self.now }
    {
        let reply = self.cache.peek(line)?;
        Some(reply.as_str())
    }

    /// Keeps the reply to a line, in place of an older one. The least recently used line is dropped
    /// where there would be more than 256.
    pub fn keep(&mut self, line: String, reply: String) -> Result<(), AllocError>
        ensures ok { OnOk result
            (self.new ≡ after_keeping (string_bytes line) (string_bytes reply) self.old) }
        ensures err { OnErr result (self.new ≡ self.old) }
        ensures memo { IsMemo self.new }
        ensures succeeds { IsSome (kept_for (string_bytes line) self.old) → IsOk result }
    {
        self.cache.put(line, reply)?;
        Ok(())
    }
}
