//! Expressions in generators.

use sqlite_items::{Boxed, Items};

/// An expression in generators. `Conj(u, v)` is `u^v`, and `Comm(u, v)` is `[u,v]`. It is well
/// shaped where each product has at least two items, each number is a generator's, and no exponent
/// is `i128::MIN`.
#[derive(Drop)]
pub enum Expr {
    One,
    Gen(u32),
    Product(Items<Expr>),
    Pow(Boxed<Expr>, i128),
    Conj(Boxed<Expr>, Boxed<Expr>),
    Comm(Boxed<Expr>, Boxed<Expr>),
}
