//! Bytes in memory, with faults that are asked for.

ghost use Rattle.std.specs.Prelude.{◌≡◌, ◌≤◌};

use super::failed::Failed;
use super::pieces::Pieces;
use super::source::Source;
use std::marker::Model;

/// Bytes in memory, given in pieces. The calls whose numbers, from 1, are in a list fail.
#[derive(Drop)]
pub struct MemorySource {
    pieces: Pieces,
    fail: Vec<u64>,
    calls: u64,
    faults: u64,
}

impl Model for MemorySource {
    ghost use Rattle.nil_io.specs.Memory.{FailingStream};

    ghost Value = { FailingStream };

    ghost view = { λ s. record {
      left = s.pieces.left;
      piece = s.pieces.piece;
      given = s.pieces.given;
      fail = s.fail.items;
      calls = s.calls;
      faults = s.faults;
    } };
}

impl Source for MemorySource {
    ghost use Rattle.std.specs.Prelude.{◌≡◌, ◌↔◌, Some, min, length, IfOk, IsErr, IsTrue};
    ghost use Rattle.std.specs.Io.{ReadsAtMost};
    ghost use Rattle.std.specs.Io.KnownBytes.{ReadConsumes};
    ghost use Rattle.nil_io.specs.Causes.{HasCause, Counts};
    ghost use Rattle.nil_io.specs.Memory.{fails, next};

    ghost left = { λ s. Some s.left };

    ghost faults = { λ s. s.faults };

    ghost given = { λ s. s.given };

    fn read(&mut self, buf: &mut [u8]) -> Result<usize, Failed>
        ensures bound { ReadsAtMost result buf.new }
        ensures bytes { ReadConsumes (Some self.old.left) (Some self.new.left) result buf.new }
        ensures cause { HasCause self.old.faults self.new.faults result }
        ensures count { Counts self.old.given self.new.given result }
        ensures refused { IsErr result ↔ IsTrue (fails self.old.fail self.old.calls) }
        ensures piece { IfOk result (λ m. m ≡ min (min (length self.old.left) self.old.piece)
            (length buf.old)) }
        ensures call { self.new.calls ≡ next self.old.calls }
        ensures fail { self.new.fail ≡ self.old.fail }
        ensures kept { self.new.piece ≡ self.old.piece }
    {
        self.calls = self.calls.saturating_add(1);
        if self.fail.contains(&self.calls) {
            self.faults = self.faults.saturating_add(1);
            return Err(Failed);
        }
        Ok(self.pieces.give(buf))
    }
}

impl MemorySource {
    /// A source of these bytes, at most `piece` of them at a call.
    pub fn new(bytes: Vec<u8>, piece: usize, fail: Vec<u64>) -> MemorySource
        requires { 1 ≤ piece }
        ensures left { result.left ≡ bytes.items }
        ensures piece { result.piece ≡ piece }
        ensures fail { result.fail ≡ fail.items }
        ensures calls { result.calls ≡ 0 }
    {
        MemorySource {
            pieces: Pieces::new(bytes, piece),
            fail,
            calls: 0,
            faults: 0,
        }
    }

    /// The bytes that are left.
    pub fn left(&self) -> &[u8]
        ensures { result.now ≡ self.now.left }
    {
        self.pieces.left()
    }
}
