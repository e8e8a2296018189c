//! A product that isn't whole yet.

use nil_word::Expr;
use sqlite_items::Items;

/// The factors of a product so far, and the base before a `^`, where one was the last token.
#[derive(Drop)]
pub struct Level {
    pub done: Items<Expr>,
    pub base: Option<Expr>,
}
