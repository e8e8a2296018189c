//! The files of a runtime as a shelf.

ghost use Rattle.std.specs.Prelude.{◌≡◌, ℕ, ◌≤◌, List, None, vec_len, IfOk};
ghost use Rattle.std.specs.declared.option.Option.{Option};

use super::shelf::Shelf;
use super::shelf_fault::ShelfFault;
use std::alloc::Global;
use std::fs;
use std::io::Read;
use std::rt::Files;

/// The files of a runtime, by their paths. What they hold isn't known.
#[derive(Drop)]
pub struct FileShelf<'a, R> {
    rt: &'a R,
    faults: u64,
    longs: u64,
}

impl<'a, R: Files> Shelf for FileShelf<'a, R> {
    ghost contents = { λ _ _. None };

    ghost faults = { λ s _. s.faults };

    ghost longs = { λ s _ _. s.longs };

    fn read(&mut self, alloc: Global, name: &str, limit: u64) -> Result<Vec<u8>, ShelfFault> {
        match read_file(self.rt, alloc, name, limit) {
            Ok(bytes) => Ok(bytes),
            Err(ShelfFault::Failed) => {
                self.faults = self.faults.saturating_add(1);
                Err(ShelfFault::Failed)
            }
            Err(ShelfFault::Long) => {
                self.longs = self.longs.saturating_add(1);
                Err(ShelfFault::Long)
            }
            Err(ShelfFault::Memory) => Err(ShelfFault::Memory),
        }
    }
}

impl<'a, R: Files> FileShelf<'a, R> {
    /// A shelf of the files of a runtime.
    pub fn new(rt: &'a R) -> FileShelf<'a, R>
        ensures faults { result.faults ≡ 0 }
        ensures longs { result.longs ≡ 0 }
    {
        FileShelf {
            rt,
            faults: 0,
            longs: 0,
        }
    }
}

fn read_file<R: Files>(rt: &R, alloc: Global, name: &str, limit: u64) -> Result<Vec<u8>, ShelfFault>
    ensures { IfOk result (λ v. vec_len v ≤ limit) }
{
    let Ok(mut file) = fs::open(rt, name) else {
        return Err(ShelfFault::Failed);
    };
    read_within(alloc, &mut file, limit)
}

/// All that a reader has left, where that is at most `limit` bytes. At most one byte more is taken.
fn read_within<F: Read>(alloc: Global, file: &mut F, limit: u64) -> Result<Vec<u8>, ShelfFault>
    ensures { IfOk result (λ v. vec_len v ≤ limit) }
{
    let mut bytes = Vec::new(alloc);
    let mut chunk = [0u8; 4096];
    'reading: while bytes.len() as u64 <= limit {
        let room = (limit - bytes.len() as u64).min(4095) as usize + 1;
        let Ok(count) = file.read(&mut chunk[..room]) else {
            return Err(ShelfFault::Failed);
        };
        if count == 0 {
            return Ok(bytes);
        }
        let Ok(()) = bytes.extend_from_slice(&chunk[..count]) else {
            return Err(ShelfFault::Memory);
        };
    }
    Err(ShelfFault::Long)
}
