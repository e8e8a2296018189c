//! Free nilpotent groups of class two.

ghost use Rattle.std.specs.Prelude.{◌≡◌, IfOk, IfSome, IfNone, IsErrOf, IsOkUnless};
ghost use Rattle.nil_examples.specs.Sizes.{size_fault};
ghost use Rattle.nil_examples.specs.Free.{free_class_two};
ghost use Rattle.nil_examples.specs.ClassTwo.{IsFreeOfClassTwo};

use super::example::Example;
use super::example_fault::ExampleFault;
use super::presenting::present;
use super::sizes::size_fault;
use nil_pres::Presentation;
use std::alloc::Global;

/// The free nilpotent group of class two with `r` generators, for 1 to 9 generators.
pub fn free_class_two(alloc: Global, r: u64) -> Result<Presentation, ExampleFault>
    ensures refused { IfSome (size_fault 1 9 r) (λ fault. IsErrOf result fault) }
    ensures taken { IfNone (size_fault 1 9 r) (IsOkUnless result ExampleFault.Memory) }
    ensures ok { IfOk result (λ p. p ≡ free_class_two r) }
    ensures free { IfOk result (IsFreeOfClassTwo r) }
{
    if let Some(fault) = size_fault(1, 9, r) {
        return Err(fault);
    }
    let generators = r as u32;
    let example = Example::Free(generators);
    present(alloc, &example)
}
