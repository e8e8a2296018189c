//! Queries.

use super::expr::Expr;

/// What a line asks. `Value` is for the vector of an element, `Same` whether two elements are
/// equal, `Solve(a, b)` for the `x` with `a x = b`, and `Quotient(a, b)` for `a b^-1`. `Blank` asks
/// nothing.
#[derive(Drop)]
pub enum Query {
    Value(Expr),
    Same(Expr, Expr),
    Solve(Expr, Expr),
    Quotient(Expr, Expr),
    Blank,
}
