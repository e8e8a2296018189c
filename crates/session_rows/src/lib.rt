//! Worked rows of whole sessions over the outside in memory, as tests. They stand in a crate of
//! their own so that the crates that they call are proved once.
//! Promised here: that a session over infallible implementations ends well.
#![tactic(auto)]

#[cfg(test)]
mod collected;
#[cfg(test)]
mod compiled;
#[cfg(test)]
mod examples;
#[cfg(test)]
mod faults;
#[cfg(test)]
mod files;
#[cfg(test)]
mod fixtures;
#[cfg(test)]
mod long;
#[cfg(test)]
mod memo;
#[cfg(test)]
mod offers;
#[cfg(test)]
mod own;
#[cfg(test)]
mod pieces;
#[cfg(test)]
mod prefixes;
#[cfg(test)]
mod proposers;
#[cfg(test)]
mod refusals;
#[cfg(test)]
mod rows;
pub mod sure;
#[cfg(test)]
mod tables;
#[cfg(test)]
mod texts;
