//! Sizes and their ranges.

ghost use Rattle.std.specs.Prelude.{◌≡◌};
ghost use Rattle.nil_examples.specs.Sizes.{size_fault};

use super::example_fault::ExampleFault;

/// The fault of a number that is out of range.
pub(crate) fn size_fault(least: u64, most: u64, number: u64) -> Option<ExampleFault>
    ensures { result ≡ size_fault least most number }
{
    if least <= number && number <= most {
        None
    } else {
        Some(ExampleFault::Size(number))
    }
}
