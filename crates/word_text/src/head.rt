//! What a line asks.

use nil_word::Expr;

/// What the line is, outside all brackets.
#[derive(Drop)]
pub enum Head {
    Value,
    Same(Expr),
    Solve,
    SolveAfter(Expr),
    Quotient,
    QuotientAfter(Expr),
}
