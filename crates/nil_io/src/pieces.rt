//! Bytes in memory that are given in pieces.

ghost use Rattle.std.specs.Prelude.{◌≡◌, ℕ, ◌<◌, ◌≤◌, ◌++◌, [], length, take, min};
ghost use Rattle.nil_io.specs.Causes.{RoseBy};

use std::marker::Model;

/// The bytes that are left, at most `piece` of them at a call.
#[derive(Drop)]
pub(crate) struct Pieces {
    bytes: Vec<u8>,
    start: usize,
    piece: usize,
    given: u64,
}

impl Model for Pieces {
    ghost use Rattle.std.specs.Prelude.{◌≤◌, drop, vec_len};
    ghost use Rattle.nil_io.specs.Stream.{Stream};

    ghost Value = { Stream };

    ghost view = { λ p. record { left = drop p.start p.bytes.items; piece = p.piece; given = p.given } };

    ghost invariant = { λ p. (p.start ≤ vec_len p.bytes) × (1 ≤ p.piece) };
}

impl Pieces {
    pub(crate) fn new(bytes: Vec<u8>, piece: usize) -> Pieces
        requires { 1 ≤ piece }
        ensures left { result.left ≡ bytes.items }
        ensures piece { result.piece ≡ piece }
        ensures given { result.given ≡ 0 }
    {
        Pieces {
            bytes,
            start: 0,
            piece,
            given: 0,
        }
    }

    pub(crate) fn left(&self) -> &[u8]
        ensures { result.now ≡ self.now.left }
    {
        &self.bytes[self.start..]
    }

    /// Takes the next piece into the front of a buffer, and says how many bytes it has.
    pub(crate) fn give(&mut self, buf: &mut [u8]) -> usize
        ensures count { result ≡ min (min (length self.old.left) self.old.piece) (length buf.old) }
        ensures bound { (result ≤ length buf.new) × (length (take result buf.new) ≡ result) }
        ensures taken { self.old.left ≡ take result buf.new ++ self.new.left }
        ensures at_end { result ≡ 0 → 0 < length buf.new → self.new.left ≡ [] }
        ensures given { RoseBy result self.old.given self.new.given }
        ensures piece { self.new.piece ≡ self.old.piece }
    {
        let rest = &self.bytes[self.start..];
        let count = rest.len().min(self.piece).min(buf.len());
        buf[..count].copy_from_slice(&rest[..count]);
        self.start += count;
        self.given = self.given.saturating_add(count as u64);
        count
    }
}
