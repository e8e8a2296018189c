//! Bytes written to memory, with faults that are asked for.

ghost use Rattle.std.specs.Prelude.{◌≡◌, [], vec_capacity};

use super::failed::Failed;
use super::sink::Sink;
use std::marker::Model;

/// Bytes in memory, within the capacity of a vector. A write takes its whole piece. One that finds no
/// room for it fails, and so do the calls whose numbers, from 1, are in a list.
#[derive(Drop)]
pub struct MemorySink {
    bytes: Vec<u8>,
    room: usize,
    fail: Vec<u64>,
    calls: u64,
    faults: u64,
}

impl Model for MemorySink {
    ghost use Rattle.std.specs.Prelude.{◌≤◌, vec_len, vec_capacity};
    ghost use Rattle.nil_io.specs.Memory.{FailingRoom};

    ghost Value = { FailingRoom };

    ghost view = { λ s. record {
      written = s.bytes.items;
      room = s.room;
      fail = s.fail.items;
      calls = s.calls;
      faults = s.faults;
    } };

    ghost invariant = { λ s. (vec_len s.bytes ≤ s.room) × (s.room ≤ vec_capacity s.bytes) };
}

impl Sink for MemorySink {
    ghost use Rattle.std.specs.Prelude.{◌≡◌, ◌<◌, ◌≤◌, ◌-◌, ◌↔◌, ◌||◌, nat_lt, Some, length, IfOk, IsErr, IsTrue};
    ghost use Rattle.std.specs.Io.{WritesAtMost};
    ghost use Rattle.std.specs.Io.KnownBytes.{WriteAppends};
    ghost use Rattle.nil_io.specs.Causes.{HasCause};
    ghost use Rattle.nil_io.specs.Memory.{fails, next};

    ghost written = { λ s. Some s.written };

    ghost faults = { λ s. s.faults };

    fn write(&mut self, bytes: &[u8]) -> Result<usize, Failed>
        ensures bound { WritesAtMost result bytes.now }
        ensures some { 0 < length bytes.now → IfOk result (λ m. 1 ≤ m) }
        ensures bytes { WriteAppends (Some self.old.written) (Some self.new.written) result bytes.now }
        ensures cause { HasCause self.old.faults self.new.faults result }
        ensures refused { IsErr result ↔ IsTrue (fails self.old.fail self.old.calls
            || nat_lt (self.old.room - length self.old.written) (length bytes.now)) }
        ensures whole { IfOk result (λ m. m ≡ length bytes.now) }
        ensures call { self.new.calls ≡ next self.old.calls }
        ensures fail { self.new.fail ≡ self.old.fail }
        ensures room { self.new.room ≡ self.old.room }
    {
        self.calls = self.calls.saturating_add(1);
        let there = self.room - self.bytes.len();
        if self.fail.contains(&self.calls) || there < bytes.len() {
            self.faults = self.faults.saturating_add(1);
            return Err(Failed);
        }
        let Ok(()) = self.bytes.extend_from_slice(bytes) else {
            unreachable!()
        };
        Ok(bytes.len())
    }
}

impl MemorySink {
    /// A sink that writes within the capacity of a vector. What the vector holds goes.
    pub fn new(room: Vec<u8>, fail: Vec<u64>) -> MemorySink
        ensures written { result.written ≡ [] }
        ensures fail { result.fail ≡ fail.items }
        ensures calls { result.calls ≡ 0 }
        ensures room { result.room ≡ vec_capacity room }
    {
        let mut bytes = room;
        bytes.clear();
        let room = bytes.capacity();
        MemorySink {
            bytes,
            room,
            fail,
            calls: 0,
            faults: 0,
        }
    }

    /// The bytes written.
    pub fn bytes(&self) -> &[u8]
        ensures { result.now ≡ self.now.written }
    {
        &self.bytes
    }
}
