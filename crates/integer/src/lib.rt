//! Laws of the integers: a commutative ring without zero divisors, finite sums, binomial coefficients.
//! Nothing here runs: each function is a law, and its contract is the statement.
#![tactic(auto)]

mod binomial_laws;
mod ring_laws;
mod sum_laws;

pub use binomial_laws::{binomials, product_rule};
pub use ring_laws::{associates, commutes, distributes, has_no_zero_divisors};
pub use sum_laws::finite_sums;
