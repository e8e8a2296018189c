//! The compile of a presentation: level by level from the last generator downwards, the overlaps
//! are tried, the proposers are asked, and where no table of theirs is accepted, it is summed.
//! A presentation is decided: by its table, or by an overlap whose two ways differ. Not promised:
//! that a value on the way stays within 128 bits. The place of the first that doesn't is named.
#![tactic(auto)]

mod asked;
mod asking;
mod base;
mod compiled;
mod compiling;
mod judging;
pub mod laws;
mod level;
mod origin;
mod outcome;
mod passing;
mod reason;
mod wide_place;

pub use asked::Asked;
pub use compiled::Compiled;
pub use compiling::compile;
pub use hall_table::Memory;
pub use origin::Origin;
pub use outcome::Outcome;
pub use reason::Reason;
pub use wide_place::WidePlace;
