//! The table of a level.

ghost use Rattle.std.specs.Prelude.{◌≡◌, ◌+◌, ◌≤◌, ◌∷◌, [], ℤ, List, length, IfOk};
ghost use Rattle.nil_num.specs.Outcome.{Gives};
ghost use Rattle.nil_word.specs.Words.{IsVector};
ghost use Rattle.nil_pres.specs.Relations.{relations_of, between};
ghost use Rattle.hall_law.specs.Plan.{Powers, Images, AreImages, summed};
ghost use Rattle.hall_law.specs.Table.{IsTable};
ghost use Rattle.hall_table.specs.Agreement.{IsPowerOf, HaveEqualWays};
ghost use Rattle.hall_table.specs.Order.{generators};
ghost use Rattle.hall_table.specs.Tabled.{last_of};
ghost use Rattle.hall_table.specs.Values.{values};
ghost use Rattle.sum_compiler.specs.Calls.{StopsIn, MakesIn, place_of};
ghost use Rattle.sum_compiler.specs.Putting.{into, put_in, calls_in};
ghost use Rattle.sum_compiler.specs.Plan.{first_poly, plan};

use crate::Memory;
use crate::assigning::into;
use crate::images::images;
use crate::powers::powers;
use crate::products::product;
use crate::putting::put_in_table;
use crate::sum_fault::SumFault;
use crate::sum_step::SumStep;
use binom_poly::{Poly, PolyFault, add, var, x_of, y_of};
use hall_table::presentations::relations;
use hall_table::{Checked, Table, TableOfFault};
use nil_pres::Presentation;
use poly_subst::Substitution;
use std::alloc::{AllocError, Global};

/// `x_i + y_i`.
fn first_poly(alloc: Global, i: u32) -> Result<Poly, Memory>
    requires least { 1 ≤ i }
    requires most { i ≤ 48 }
    ensures { IfOk result (λ sum. sum ≡ first_poly i) }
{
    let x = var(alloc, x_of(i))?;
    let y = var(alloc, y_of(i))?;
    match add(alloc, &x, &y) {
        Ok(sum) => Ok(sum),
        Err(PolyFault::Memory) => Err(AllocError),
        Err(PolyFault::Wide) => unreachable!(),
    }
}

/// The polynomials of a level: `x_i + y_i`, and those of the table above with the product in place
/// of x.
fn level_polys(
    alloc: Global,
    table: &Table,
    product: Vec<Poly>,
    i: u32,
) -> Result<Vec<Poly>, SumFault>
    requires level { table.now.level ≡ i + 1 }
    requires least { 1 ≤ i }
    requires size { length product.items ≡ generators table.now }
    ensures polys { IfOk result (λ polys. polys.items
        ≡ first_poly i ∷ put_in (into table.now.level product.items []) table.now.polys) }
    ensures makes { Gives place_of result (MakesIn (calls_in SumStep.Last 0 table.now.level
        (into table.now.level product.items []) table.now.polys)) }
{
    let list = into(alloc, table.level(), product, Vec::new(alloc))?;
    let mut substitution = Substitution::new(alloc, list)?;
    let first = first_poly(alloc, i)?;
    let mut later = put_in_table(alloc, SumStep::Last, 0, table, &mut substitution)?;
    let mut polys = Vec::new(alloc);
    polys.push(first)?;
    polys.append(&mut later)?;
    Ok(polys)
}

/// The multiplication table of level `i` from that of the level above.
pub fn level_table(
    alloc: Global,
    pres: &Presentation,
    above: &Checked,
    i: u32,
) -> Result<Table, SumFault>
    requires pres { above.now.pres ≡ pres.now }
    requires level { above.now.table.level ≡ i + 1 }
    requires least { 1 ≤ i }
    requires agree { HaveEqualWays above.now i }
    ensures level { IfOk result (λ t. t.level ≡ i) }
    ensures last { IfOk result (λ t. last_of t ≡ length pres.now.names) }
    // Its product is that of the sums, whichever powers and images make them.
    ensures values { IfOk result (λ t. (Q : Powers) → IsPowerOf above.now Q → (A : Images)
        → AreImages (relations_of pres.now) (between pres.now) i (values above.now.table) Q A
        → (x y : List ℤ) → IsVector (length pres.now.names) i x
        → IsVector (length pres.now.names) i y
        → values t x y ≡ summed (length pres.now.names) i (values above.now.table) Q A x y) }
    ensures multiplies { IfOk result (λ t. IsTable (relations_of pres.now) i (values t)) }
    ensures stops { Gives place_of result (StopsIn (plan above.now.table (between pres.now i) i)) }
{
    let table = above.table();
    let _ = (table.level(), pres.count());
    relations();
    let power_polys = powers(alloc, table)?;
    let images = images(alloc, pres, table, &power_polys, i)?;
    let product = product(alloc, table, &power_polys, &images, i)?;
    let polys = level_polys(alloc, table, product, i)?;
    match Table::of(alloc, i, polys) {
        Ok(made) => Ok(made),
        Err(TableOfFault::Memory) => Err(SumFault::Memory),
        Err(TableOfFault::Shape(_)) => unreachable!(),
    }
}
