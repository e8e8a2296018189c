//! Multiplication tables as polynomials, and tables that are known to multiply in a presentation.
//! How a table is found, and how words are evaluated with it, stands elsewhere.
#![tactic(auto)]

mod checked;
pub mod laws;
mod lending;
mod multiplying;
pub mod presentations;
mod reserving;
mod shaping;
mod summing;
mod table;
mod table_of_fault;
mod tailing;
#[cfg(test)]
mod tests;
#[cfg(test)]
mod tree_tests;
mod wide_at;

pub use checked::Checked;
use std::alloc::AllocError;
pub use table::{GENERATOR_LIMIT, Table};
pub use table_of_fault::TableOfFault;
pub use wide_at::WideAt;

/// Want of memory.
pub type Memory = AllocError;
