//! The multiplication table of a level from the table of the level above, by sums over a variable:
//! powers, the images of the generators under the powers of the new one, and their product.
//! Not promised: that a plan fits 128 bits. The place of the first step that doesn't is named.
#![tactic(auto)]

mod assigning;
mod images;
mod joining;
mod levels;
mod powers;
mod products;
mod putting;
mod sum_fault;
mod sum_place;
mod sum_step;
mod summing;

pub use images::conjugate_powers;
pub use levels::level_table;
pub use powers::power_table;
use std::alloc::AllocError;
pub use sum_fault::SumFault;
pub use sum_place::SumPlace;
pub use sum_step::SumStep;

/// Want of memory.
pub type Memory = AllocError;
