//! A reader of std as a source.

ghost use Rattle.std.specs.Prelude.{◌≡◌, ℕ, List};
ghost use Rattle.std.specs.declared.option.Option.{Option};

use super::failed::Failed;
use super::source::Source;
use std::io::Read;

/// A reader of std as a source, such as standard input. Its bytes are known where the reader's are,
/// and those of standard input aren't.
#[derive(Drop)]
pub struct InputSource<R> {
    reader: R,
    faults: u64,
    given: u64,
}

impl<R: Read> Source for InputSource<R> {
    ghost left = { λ s. R.remaining s.reader };

    ghost faults = { λ s. s.faults };

    ghost given = { λ s. s.given };

    fn read(&mut self, buf: &mut [u8]) -> Result<usize, Failed> {
        match self.reader.read(buf) {
            Ok(count) => {
                self.given = self.given.saturating_add(count as u64);
                Ok(count)
            }
            Err(_) => {
                self.faults = self.faults.saturating_add(1);
                Err(Failed)
            }
        }
    }
}

impl<R: Read> InputSource<R> {
    /// A source over a reader.
    pub fn new(reader: R) -> InputSource<R>
        ensures reader { result.reader ≡ reader }
        ensures faults { result.faults ≡ 0 }
        ensures given { result.given ≡ 0 }
    {
        InputSource {
            reader,
            faults: 0,
            given: 0,
        }
    }
}
