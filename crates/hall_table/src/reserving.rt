//! The rows of a table.

ghost use Rattle.std.specs.Prelude.{◌≡◌, ℕ, ℤ, pos, max, IfOk, slice_index};
ghost use Rattle.binom_poly.specs.Readings.{value_at};

use super::Memory;
use super::table::Table;
use binom_poly::{Rows, Top, greatest_exponents_in, top_of, y_of};
use std::alloc::Global;

/// The top of a variable's row, by the greatest exponents of all: at least 1.
fn row_top(greatest: &[u32], variable: u32) -> Top
    ensures { result ≡ record { var = variable; top = max (slice_index greatest.now variable) 1 } }
{
    Top {
        var: variable,
        top: top_of(greatest, variable).max(1),
    }
}

impl Table {
    ghost use Rattle.hall_table.specs.Width.{HasRows};

    /// A row for each `x_k` and `y_k`, up to its greatest exponent in the table and at least 1. All
    /// values are 0.
    pub fn rows(&self, alloc: Global) -> Result<Rows, Memory>
        ensures rows { IfOk result (λ rows. HasRows self.now rows) }
        ensures zeros { IfOk result (λ rows. (v : ℕ) → value_at rows v ≡ pos 0) }
    {
        let greatest = greatest_exponents_in(&self.polys);
        let mut tops = Vec::new(alloc);
        for k in self.level()..self.last() + 1 {
            tops.push(row_top(&greatest, k))?;
            tops.push(row_top(&greatest, y_of(k)))?;
        }
        Rows::reserve(alloc, &tops)
    }
}
