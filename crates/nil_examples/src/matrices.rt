//! Groups of unitriangular matrices.

ghost use Rattle.std.specs.Prelude.{◌≡◌, IfOk, IfSome, IfNone, IsErrOf, IsOkUnless};
ghost use Rattle.nil_examples.specs.Sizes.{size_fault};
ghost use Rattle.nil_examples.specs.Places.{unitriangular};
ghost use Rattle.nil_examples.specs.Matrices.{AreMatrices};
ghost use Rattle.nil_examples.specs.Products.{HoldForMatrices};

use super::example::Example;
use super::example_fault::ExampleFault;
use super::places::places;
use super::presenting::present;
use super::sizes::size_fault;
use nil_pres::Presentation;
use std::alloc::Global;

/// The group of the unitriangular integer matrices with `m` rows, for 2 to 10 rows.
pub fn unitriangular(alloc: Global, m: u64) -> Result<Presentation, ExampleFault>
    ensures refused { IfSome (size_fault 2 10 m) (λ fault. IsErrOf result fault) }
    ensures taken { IfNone (size_fault 2 10 m) (IsOkUnless result ExampleFault.Memory) }
    ensures ok { IfOk result (λ p. p ≡ unitriangular m) }
    ensures matrices { IfOk result (AreMatrices m) }
    ensures hold { IfOk result (HoldForMatrices m) }
{
    if let Some(fault) = size_fault(2, 10, m) {
        return Err(fault);
    }
    let rows = m as u32;
    let grid = places(alloc, rows)?;
    let example = Example::Matrices(grid);
    present(alloc, &example)
}
