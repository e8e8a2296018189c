//! Reads presentation files and writes them. Every byte sequence is read as its presentation or
//! refused with its first fault. Not promised: that a presentation is consistent.
#![tactic(auto)]

mod file_kind;
mod generators;
pub mod laws;
mod lines;
mod pres_fault;
mod reading;
mod relation_words;
mod relations;
mod spelling;
mod words;
mod writing;

pub use file_kind::FileKind;
pub use pres_fault::{PresFault, fault_text};
pub use reading::read;
pub use writing::write;

#[cfg(test)]
mod tests;
