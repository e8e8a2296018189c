//! The table of the polynomials of the least trees.

ghost use Rattle.std.specs.Prelude.{◌≡◌, ◌≤◌, length, IfOk};
ghost use Rattle.tree_propose.specs.Giving.{tree_table};

use binom_poly::Poly;
use dt_letters::Letters;
use dt_trees::tree_polys;
use hall_table::{Memory, Table, TableOfFault};
use std::alloc::{AllocError, Global};

/// The table of the tree polynomials of a level, where none of them overflows.
pub(crate) fn tree_table(
    alloc: Global,
    letters: &mut Letters,
    level: u32,
) -> Result<Option<Table>, Memory>
    requires least { 1 ≤ level }
    requires most { level ≤ length letters.old.pres.names }
    ensures { IfOk result (λ table. table ≡ tree_table letters.old.pres level) }
{
    let _generators = letters.pres().count();
    let Some(polys) = tree_polys(alloc, letters, level)? else {
        return Ok(None);
    };
    match Table::of(alloc, level, polys) {
        Ok(table) => Ok(Some(table)),
        Err(TableOfFault::Shape(_)) => unreachable!(),
        Err(TableOfFault::Memory) => Err(AllocError),
    }
}
