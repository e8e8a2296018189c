//! The table of the last generator.

ghost use Rattle.std.specs.Prelude.{◌≡◌, ◌≤◌, length, IfOk};
ghost use Rattle.sum_compiler.specs.Plan.{first_poly};
ghost use Rattle.hall_compile.specs.Levels.{base_table, paired};

use super::Memory;
use binom_poly::{Poly, PolyFault, add, var, x_of, y_of};
use hall_law::laws::last;
use hall_table::{Checked, Table, TableOfFault};
use nil_pres::Presentation;
use std::alloc::{AllocError, Global};

/// `x_n + y_n`.
fn last_poly(alloc: Global, n: u32) -> Result<Poly, Memory>
    requires least { 1 ≤ n }
    requires most { n ≤ 48 }
    ensures { IfOk result (λ p. p ≡ first_poly n) }
{
    let x = var(alloc, x_of(n))?;
    let y = var(alloc, y_of(n))?;
    match add(alloc, &x, &y) {
        Ok(sum) => Ok(sum),
        Err(PolyFault::Memory) => Err(AllocError),
        Err(PolyFault::Wide) => unreachable!(),
    }
}

/// The table of the last generator.
fn base_table(alloc: Global, n: u32) -> Result<Table, Memory>
    requires least { 1 ≤ n }
    requires most { n ≤ 48 }
    ensures { IfOk result (λ t. t ≡ base_table n) }
{
    let mut polys = Vec::new(alloc);
    polys.push(last_poly(alloc, n)?)?;
    match Table::of(alloc, n, polys) {
        Ok(table) => Ok(table),
        Err(TableOfFault::Memory) => Err(AllocError),
        Err(TableOfFault::Shape(_)) => unreachable!(),
    }
}

/// The presentation with the table of its last generator.
pub fn base(alloc: Global, pres: &Presentation) -> Result<Checked, Memory>
    ensures base { IfOk result (λ c. c ≡ paired pres.now (base_table (length pres.now.names))) }
{
    last();
    let table = base_table(alloc, pres.count())?;
    let pres = pres.copy(alloc)?;
    Ok(Checked::new(pres, table))
}
