//! What an expression is, as far as brackets around it go.

/// What an expression is, as far as brackets around it go: `1`, a generator or a commutator, a power
/// or a conjugate, a product.
#[derive(Clone, Copy)]
pub(super) enum Shape {
    One,
    Atom,
    Raised,
    Many,
}
