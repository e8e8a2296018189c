//! What terms have below some parts.

use binom_poly::Part;

/// What is left of a term before the parts that lead to it.
#[derive(Clone, Copy, Debug, Drop)]
pub struct Tail<'a> {
    pub parts: &'a [Part],
    pub coefficient: i128,
}
