//! Elements of a nilpotent group by a table that multiplies in its presentation: products,
//! solutions, inverses, quotients, powers, commutators, conjugates, expressions and replies to
//! queries. Not promised: that a value on the way stays within 128 bits. Where one doesn't, its
//! place is named.
#![tactic(auto)]

mod answering;
mod commuting;
mod copying;
mod dividing;
mod eval_fault;
mod expressions;
pub mod laws;
mod meaning;
mod multiplying;
mod pairing;
mod powering;
mod reply;
mod solving;
mod syllables;
mod workspace;

pub use answering::answer;
pub use commuting::{commutator, conjugate};
pub use dividing::{inverse, quotient};
pub use eval_fault::EvalFault;
pub use expressions::eval_expr;
pub use hall_table::Memory;
pub use multiplying::multiply;
pub use powering::power;
pub use reply::Reply;
pub use solving::solve;
pub use workspace::Workspace;
