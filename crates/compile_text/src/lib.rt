//! The lines of what a compile says. Each text is exactly its definition's, for every value of its
//! type. Not promised: that a text is of a compile that took place.
#![tactic(auto)]

mod differing;
mod levels;
mod names;
mod wide;

pub use differing::inconsistent_text;
pub use levels::compiled_text;
use std::alloc::AllocError;
pub use wide::wide_text;

/// Want of memory.
pub type Memory = AllocError;
