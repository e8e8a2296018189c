//! What the definitions of polynomials come to.

ghost use Rattle.dt_trees.specs.Overflowing.{TestsOverflow};

/// The tests of what overflows decide it.
pub fn overflowing()
    ensures { TestsOverflow }
{}
