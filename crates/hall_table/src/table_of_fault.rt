//! Why polynomials make no table.

use thiserror::Error;

/// Why polynomials make no table.
#[derive(Clone, Copy, PartialEq, Eq, Debug, Drop, Error)]
pub enum TableOfFault {
    /// The polynomial of this generator is the first that breaks the shape.
    #[error("polynomial {0} breaks the shape")]
    Shape(u32),
    #[error("want of memory")]
    Memory,
}
