//! Room for evaluation.

ghost use Rattle.std.specs.Prelude.{◌≡◌, IfOk};
ghost use Rattle.hall_table.specs.Multiplies.{Paired, IsChecked};
ghost use Rattle.group_eval.specs.Space.{IsSpaceOf};

use super::Memory;
use binom_poly::Rows;
use hall_table::Checked;
use nil_word::Vector;
use std::alloc::Global;
use std::marker::Model;

/// Rows and vectors for the evaluation by one table. A call may leave other values in them, and the
/// next call is served all the same.
#[derive(Drop)]
pub struct Workspace {
    pub(super) rows: Rows,
    pub(super) solution: Vector,
    pub(super) first: Vector,
    pub(super) second: Vector,
    pub(super) zero: Vector,
}

impl Model for Workspace {
    ghost use Rattle.std.specs.Prelude.{◌≡◌, length};
    ghost use Rattle.hall_law.specs.Table.{zeros};
    ghost use Rattle.group_eval.specs.Space.{Space};

    ghost Value = { Space };

    ghost view = { λ w. record { count = length w.zero; rows = w.rows } };

    ghost invariant = { λ w. (length w.solution ≡ length w.zero) × (length w.first ≡ length w.zero)
        × (length w.second ≡ length w.zero) × (w.zero ≡ zeros (length w.zero)) };
}

impl Workspace {
    /// Room for a checked table.
    pub fn reserve(alloc: Global, checked: &Checked) -> Result<Workspace, Memory>
        ensures { IfOk result (λ ws. IsSpaceOf ws checked.now) }
    {
        let n = checked.pres().count();
        Ok(Workspace {
            rows: checked.table().rows(alloc)?,
            solution: Vector::zero(alloc, n)?,
            first: Vector::zero(alloc, n)?,
            second: Vector::zero(alloc, n)?,
            zero: Vector::zero(alloc, n)?,
        })
    }
}
