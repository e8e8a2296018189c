//! The lines that list the least trees of a type, and their polynomial: each tree once, in the
//! order of lists, or a refusal exactly where the polynomial overflows. Not promised: time, or that
//! memory is there.
#![tactic(auto)]

mod listing;
mod trees_fault;

pub use listing::trees_text;
pub use trees_fault::TreesFault;
