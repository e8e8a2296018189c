//! Bytes in memory, infallible.

ghost use Rattle.std.specs.Prelude.{◌≡◌, ◌≤◌};

use super::failed::Failed;
use super::pieces::Pieces;
use super::source::Source;
use std::marker::Model;

/// Bytes in memory, given in pieces, an infallible source.
#[derive(Drop)]
pub struct SureSource {
    pieces: Pieces,
}

impl Model for SureSource {
    ghost use Rattle.nil_io.specs.Stream.{Stream};

    ghost Value = { Stream };

    ghost view = { λ s. s.pieces };
}

impl Source for SureSource {
    ghost use Rattle.std.specs.Prelude.{◌≡◌, Some, min, length, IsOkAnd};
    ghost use Rattle.std.specs.Io.{ReadsAtMost};
    ghost use Rattle.std.specs.Io.KnownBytes.{ReadConsumes};
    ghost use Rattle.nil_io.specs.Causes.{HasCause, Counts};

    ghost left = { λ s. Some s.left };

    ghost faults = { λ _. 0 };

    ghost given = { λ s. s.given };

    fn read(&mut self, buf: &mut [u8]) -> Result<usize, Failed>
        ensures bound { ReadsAtMost result buf.new }
        ensures bytes { ReadConsumes (Some self.old.left) (Some self.new.left) result buf.new }
        ensures cause { HasCause 0 0 result }
        ensures count { Counts self.old.given self.new.given result }
        ensures piece { IsOkAnd result (λ m. m ≡ min (min (length self.old.left) self.old.piece)
            (length buf.old)) }
        ensures kept { self.new.piece ≡ self.old.piece }
    {
        Ok(self.pieces.give(buf))
    }
}

impl SureSource {
    /// A source of these bytes, at most `piece` of them at a call.
    pub fn new(bytes: Vec<u8>, piece: usize) -> SureSource
        requires { 1 ≤ piece }
        ensures left { result.left ≡ bytes.items }
        ensures piece { result.piece ≡ piece }
    {
        SureSource {
            pieces: Pieces::new(bytes, piece),
        }
    }
}
