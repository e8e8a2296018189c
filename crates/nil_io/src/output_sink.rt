//! A writer of std as a sink.

ghost use Rattle.std.specs.Prelude.{◌≡◌, ◌<◌, ◌≤◌, ℕ, List, None, length, IfSome};
ghost use Rattle.std.specs.declared.option.Option.{Option};

use super::failed::Failed;
use super::sink::Sink;
use std::io::Write;

/// A writer of std as a sink, such as standard output. Each write flushes. None of its bytes is
/// known: where a flush fails, what went before may have been written.
#[derive(Drop)]
pub struct OutputSink<W> {
    writer: W,
    faults: u64,
}

impl<W: Write> Sink for OutputSink<W> {
    ghost written = { λ _. None };

    ghost faults = { λ s. s.faults };

    fn write(&mut self, bytes: &[u8]) -> Result<usize, Failed> {
        match write_and_flush(&mut self.writer, bytes) {
            Some(count) => Ok(count),
            None => {
                self.faults = self.faults.saturating_add(1);
                Err(Failed)
            }
        }
    }
}

impl<W: Write> OutputSink<W> {
    /// A sink over a writer.
    pub fn new(writer: W) -> OutputSink<W>
        ensures writer { result.writer ≡ writer }
        ensures faults { result.faults ≡ 0 }
    {
        OutputSink { writer, faults: 0 }
    }
}

/// Writes a front of a piece and flushes, or answers None where something failed or nothing was
/// taken.
fn write_and_flush<W: Write>(writer: &mut W, bytes: &[u8]) -> Option<usize>
    ensures bound { IfSome result (λ m. m ≤ length bytes.now) }
    ensures some { 0 < length bytes.now → IfSome result (λ m. 1 ≤ m) }
{
    let Ok(count) = writer.write(bytes) else {
        return None;
    };
    if count == 0 && !bytes.is_empty() {
        return None;
    }
    let Ok(()) = writer.flush() else {
        return None;
    };
    Some(count)
}
