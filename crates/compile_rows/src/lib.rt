//! Worked rows of compiles, as tests. They stand in a crate of their own, above the readers and the
//! proposers that they join.
#![tactic(auto)]

#[cfg(test)]
mod rows;
#[cfg(test)]
mod saying;
#[cfg(test)]
mod tables;
