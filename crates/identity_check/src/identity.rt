//! The identities of a table.

ghost use Rattle.std.specs.Prelude.{Some};
ghost use Rattle.identity_check.specs.Texts.{identity_text};

use std::fmt;

/// An identity of a table: a polynomial of one generator `k`, on two sides.
#[derive(Clone, Copy, PartialEq, Eq, Debug, Drop)]
pub enum Identity {
    /// `f_k(x, 0)` is `x_k`.
    UnitRight { k: u32 },
    /// `f_k(0, y)` is `y_k`.
    UnitLeft { k: u32 },
    /// A last generator `j` is added.
    Up { j: u32, k: u32 },
    /// A last inverse of generator `j` is subtracted.
    Down { j: u32, k: u32 },
    /// Generator `j` multiplied on stays on.
    StepUp { j: u32, k: u32 },
    /// The inverse of generator `j` multiplied on stays on.
    StepDown { j: u32, k: u32 },
    /// The relation of the generators `j < l` holds.
    Relation { j: u32, l: u32, k: u32 },
}

impl fmt::Display for Identity {
    ghost output = { λ id. Some (identity_text id) };

    fn fmt<W: fmt::Write>(&self, f: &mut fmt::Formatter<W>) -> fmt::Result {
        match self {
            Identity::UnitRight { k } => write!(f, "unit-right {k}"),
            Identity::UnitLeft { k } => write!(f, "unit-left {k}"),
            Identity::Up { j, k } => write!(f, "up {j} {k}"),
            Identity::Down { j, k } => write!(f, "down {j} {k}"),
            Identity::StepUp { j, k } => write!(f, "step-up {j} {k}"),
            Identity::StepDown { j, k } => write!(f, "step-down {j} {k}"),
            Identity::Relation { j, l, k } => write!(f, "relation {j} {l} {k}"),
        }
    }
}
