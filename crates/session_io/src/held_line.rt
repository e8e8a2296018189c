//! The line that isn't ended yet.

ghost use Rattle.std.specs.Prelude.{◌≡◌, ◌++◌, [], IfOk};
ghost use Rattle.session_io.specs.Holding.{held};

use super::limits::LINE_LIMIT;
use std::alloc::{AllocError, Global};
use std::marker::Model;

/// The line that isn't ended yet, as far as it is held. Contracts see the bytes that are held.
#[derive(Drop)]
pub(crate) struct HeldLine {
    bytes: Vec<u8>,
}

impl Model for HeldLine {
    ghost use Rattle.std.specs.Prelude.{ℕ, List, ◌+◌, ◌≤◌};
    ghost use Rattle.std.specs.Vec.{vec_len, vec_capacity};
    ghost use Rattle.session_io.specs.Limits.{line_limit};

    ghost Value = { List ℕ };

    ghost view = { λ l. l.bytes.items };

    ghost invariant = { λ l. (vec_len l.bytes ≤ line_limit + 1) × (line_limit + 1 ≤ vec_capacity l.bytes) };
}

impl HeldLine {
    /// The empty line, with room for all that is ever held.
    pub(crate) fn reserve(alloc: Global) -> Result<HeldLine, AllocError>
        ensures { IfOk result (λ line. line ≡ []) }
    {
        let bytes = Vec::with_capacity(alloc, LINE_LIMIT + 1)?;
        Ok(HeldLine { bytes })
    }

    /// Adds bytes at the end of the line. Of a long line no more than its front is held.
    pub(crate) fn add(&mut self, bytes: &[u8])
        ensures { self.new ≡ held (self.old ++ bytes.now) }
    {
        let room = LINE_LIMIT + 1 - self.bytes.len();
        let Ok(()) = self
            .bytes
            .extend_from_slice(&bytes[..bytes.len().min(room)])
        else {
            unreachable!()
        };
    }

    /// Begins a new line.
    pub(crate) fn clear(&mut self)
        ensures { self.new ≡ [] }
    {
        self.bytes.clear();
    }

    /// The bytes that are held.
    pub(crate) fn bytes(&self) -> &[u8]
        ensures { result.now ≡ self.now }
    {
        &self.bytes
    }
}
