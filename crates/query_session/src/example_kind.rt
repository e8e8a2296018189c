//! Which example is asked for.

/// Which example is asked for.
#[derive(Clone, Copy, Debug, PartialEq, Eq)]
pub enum ExampleKind {
    /// Unitriangular matrices.
    Unitriangular,
    /// The free nilpotent group of class two.
    FreeClassTwo,
}
