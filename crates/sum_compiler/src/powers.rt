//! The powers of a table, as polynomials.

ghost use Rattle.std.specs.Prelude.{◌≡◌, ℕ, ℤ, IfOk};
ghost use Rattle.nil_num.specs.Outcome.{Gives};
ghost use Rattle.hall_table.specs.Agreement.{IsPowerOf};
ghost use Rattle.sum_compiler.specs.Calls.{StopsIn, MakesIn, place_of};
ghost use Rattle.sum_compiler.specs.Powers.{zs, powers, power_plan};
ghost use Rattle.sum_compiler.specs.Readings.{powers_at};

use crate::Memory;
use crate::sum_fault::SumFault;
use crate::sum_step::SumStep;
use crate::summing::with_sums;
use binom_poly::{Poly, var, z_of};
use hall_table::{Checked, Table};
use std::alloc::Global;

/// The variables z of a table.
fn zs(alloc: Global, table: &Table) -> Result<Vec<Poly>, Memory>
    ensures { IfOk result (λ polys. polys.items ≡ zs table.now) }
{
    let mut polys = Vec::new(alloc);
    for k in table.level()..table.last() + 1 {
        polys.push(var(alloc, z_of(k))?)?;
    }
    Ok(polys)
}

/// The entries of the power t of z.
pub fn powers(alloc: Global, table: &Table) -> Result<Vec<Poly>, SumFault>
    ensures entries { IfOk result (λ polys. polys.items ≡ powers table.now) }
    ensures makes { Gives place_of result (MakesIn (power_plan table.now)) }
{
    let steps = zs(alloc, table)?;
    with_sums(alloc, table, SumStep::Power, 0, Vec::new(alloc), steps)
}

/// The power of a vector by a table, as polynomials: entry `k` of the power t of z, for each
/// generator from the level on.
pub fn power_table(alloc: Global, above: &Checked) -> Result<Vec<Poly>, SumFault>
    // They are powers whatever the values of the other variables, and for every integer t.
    ensures powers { IfOk result (λ polys. (b : ℕ → ℤ)
        → IsPowerOf above.now (powers_at above.now.table b polys.items)) }
    ensures stops { Gives place_of result (StopsIn (power_plan above.now.table)) }
{
    let table = above.table();
    let _ = table.level();
    powers(alloc, table)
}
