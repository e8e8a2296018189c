//! What an open bracket waits for.

use nil_word::Expr;

/// What an open bracket holds: a whole expression, the first of two, or the second behind the
/// first.
#[derive(Drop)]
pub enum Bracket {
    Round,
    Square,
    Second(Expr),
}
