//! Files in memory, with faults that are asked for.

ghost use Rattle.std.specs.Prelude.{◌≡◌};
ghost use Rattle.nil_io.specs.Files.{views};

use super::files::named;
use super::shelf::Shelf;
use super::shelf_fault::ShelfFault;
use std::alloc::Global;
use std::marker::Model;

/// Files in memory. The calls whose numbers, from 1, are in a list fail, and so do missing names.
#[derive(Drop)]
pub struct MemoryShelf {
    files: Vec<(String, Vec<u8>)>,
    fail: Vec<u64>,
    calls: u64,
    faults: u64,
    longs: u64,
}

impl Model for MemoryShelf {
    ghost use Rattle.nil_io.specs.Files.{views};
    ghost use Rattle.nil_io.specs.Memory.{FailingFiles};

    ghost Value = { FailingFiles };

    ghost view = { λ s. record {
      files = views s.files.items;
      fail = s.fail.items;
      calls = s.calls;
      faults = s.faults;
      longs = s.longs;
    } };
}

impl Shelf for MemoryShelf {
    ghost use Rattle.std.specs.Prelude.{◌≡◌, ℕ, ◌<◌, ◌≤◌, List, length, vec_len, IfOk, IfSome, IfNone, IsErrOf, IsOkUnless};
    ghost use Rattle.nil_io.specs.Causes.{ShelfCauses};
    ghost use Rattle.nil_io.specs.Files.{contents_of};
    ghost use Rattle.nil_io.specs.Memory.{fault_of, next};

    ghost contents = { λ s n. contents_of s.files n };

    ghost faults = { λ s _. s.faults };

    ghost longs = { λ s _ _. s.longs };

    fn read(&mut self, alloc: Global, name: &str, limit: u64) -> Result<Vec<u8>, ShelfFault>
        ensures same { (n : List ℕ) → contents_of self.new.files n ≡ contents_of self.old.files n }
        ensures bytes { IfOk result (λ v. IfSome (contents_of self.old.files name.now) (λ xs. v.items ≡ xs)) }
        ensures bound { IfOk result (λ v. vec_len v ≤ limit) }
        ensures known_long { IsErrOf result ShelfFault.Long →
            IfSome (contents_of self.old.files name.now) (λ xs. limit < length xs) }
        ensures causes { ShelfCauses name.now limit (λ _. self.old.faults) (λ _. self.new.faults)
            (λ _ _. self.old.longs) (λ _ _. self.new.longs) result }
        ensures refused { IfSome (fault_of self.old name.now limit) (λ fault. IsErrOf result fault) }
        ensures taken { IfNone (fault_of self.old name.now limit) (IsOkUnless result ShelfFault.Memory) }
        ensures call { self.new.calls ≡ next self.old.calls }
        ensures fail { self.new.fail ≡ self.old.fail }
    {
        self.calls = self.calls.saturating_add(1);
        if self.fail.contains(&self.calls) {
            self.faults = self.faults.saturating_add(1);
            return Err(ShelfFault::Failed);
        }
        let Some(file) = named(&self.files, name) else {
            self.faults = self.faults.saturating_add(1);
            return Err(ShelfFault::Failed);
        };
        if file.len() as u64 > limit {
            self.longs = self.longs.saturating_add(1);
            return Err(ShelfFault::Long);
        }
        let Ok(bytes) = Vec::from_slice(alloc, file) else {
            return Err(ShelfFault::Memory);
        };
        Ok(bytes)
    }
}

impl MemoryShelf {
    /// A shelf of these files. Of two equal names the first counts.
    pub fn new(files: Vec<(String, Vec<u8>)>, fail: Vec<u64>) -> MemoryShelf
        ensures files { result.files ≡ views files.items }
        ensures fail { result.fail ≡ fail.items }
        ensures calls { result.calls ≡ 0 }
    {
        MemoryShelf {
            files,
            fail,
            calls: 0,
            faults: 0,
            longs: 0,
        }
    }
}
