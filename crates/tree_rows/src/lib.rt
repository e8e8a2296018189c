//! Least trees and their polynomials over small presentations: tests in a crate of their own, so
//! that what they test is proved once. Nothing is promised here.
#![tactic(auto)]

#[cfg(test)]
mod fixtures;
#[cfg(test)]
mod free;
#[cfg(test)]
mod large;
#[cfg(test)]
mod series;
