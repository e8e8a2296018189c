//! Files in memory, infallible.

ghost use Rattle.std.specs.Prelude.{◌≡◌};
ghost use Rattle.nil_io.specs.Files.{views};

use super::files::named;
use super::shelf::Shelf;
use super::shelf_fault::ShelfFault;
use std::alloc::Global;
use std::marker::Model;

/// Files in memory, an infallible shelf. A missing name has empty contents.
#[derive(Drop)]
pub struct SureShelf {
    files: Vec<(String, Vec<u8>)>,
    longs: u64,
}

impl Model for SureShelf {
    ghost use Rattle.nil_io.specs.Files.{views};
    ghost use Rattle.nil_io.specs.Memory.{Files};

    ghost Value = { Files };

    ghost view = { λ s. record { files = views s.files.items; longs = s.longs } };
}

impl Shelf for SureShelf {
    ghost use Rattle.std.specs.Prelude.{◌≡◌, ℕ, ◌<◌, ◌≤◌, List, Some, length, vec_len, IfOk, IfSome, IfNone, IsErrOf, IsOkUnless};
    ghost use Rattle.nil_io.specs.Causes.{ShelfCauses};
    ghost use Rattle.nil_io.specs.Files.{contents_or_empty};
    ghost use Rattle.nil_io.specs.Memory.{fault_within};

    ghost contents = { λ s n. Some (contents_or_empty s.files n) };

    ghost faults = { λ _ _. 0 };

    ghost longs = { λ s _ _. s.longs };

    fn read(&mut self, alloc: Global, name: &str, limit: u64) -> Result<Vec<u8>, ShelfFault>
        ensures same { (n : List ℕ) → Some (contents_or_empty self.new.files n) ≡ Some
            (contents_or_empty self.old.files n) }
        ensures bytes { IfOk result (λ v. v.items ≡ contents_or_empty self.old.files name.now) }
        ensures bound { IfOk result (λ v. vec_len v ≤ limit) }
        ensures known_long { IsErrOf result ShelfFault.Long →
            limit < length (contents_or_empty self.old.files name.now) }
        ensures causes { ShelfCauses name.now limit (λ _. 0) (λ _. 0)
            (λ _ _. self.old.longs) (λ _ _. self.new.longs) result }
        ensures refused { IfSome (fault_within limit (Some (contents_or_empty self.old.files name.now)))
            (λ fault. IsErrOf result fault) }
        ensures taken { IfNone (fault_within limit (Some (contents_or_empty self.old.files name.now)))
            (IsOkUnless result ShelfFault.Memory) }
    {
        let file = named(&self.files, name).unwrap_or(&[]);
        if file.len() as u64 > limit {
            self.longs = self.longs.saturating_add(1);
            return Err(ShelfFault::Long);
        }
        let Ok(bytes) = Vec::from_slice(alloc, file) else {
            return Err(ShelfFault::Memory);
        };
        Ok(bytes)
    }
}

impl SureShelf {
    /// A shelf of these files. Of two equal names the first counts.
    pub fn new(files: Vec<(String, Vec<u8>)>) -> SureShelf
        ensures { result.files ≡ views files.items }
    {
        SureShelf { files, longs: 0 }
    }
}
