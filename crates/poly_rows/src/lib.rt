//! Worked polynomials and their values: tests of `binom_poly`, in a crate of their own so that it is
//! proved once. Nothing is promised here.
#![tactic(auto)]

#[cfg(test)]
mod monomials;
#[cfg(test)]
mod products;
#[cfg(test)]
mod quotients;
#[cfg(test)]
mod sums;
#[cfg(test)]
mod values;
