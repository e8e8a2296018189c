//! Where the reader stands.

use super::level::Level;
use nil_word::Expr;
use sqlite_items::Items;

/// Where the reader stands: at the line's beginning, before an atom, or behind a factor.
#[derive(Drop)]
pub enum Now {
    Start,
    Atom(Level),
    /// The factors before this one, this one, and whether it is a power or a conjugate, so that no
    /// `^` may follow.
    After {
        done: Items<Expr>,
        item: Expr,
        raised: bool,
    },
}
