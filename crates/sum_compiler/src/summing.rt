//! Entries of a vector that moves with t, as sums of steps over t.

ghost use Rattle.std.specs.Prelude.{◌≡◌, ◌≢◌, ◌+◌, ◌-◌, ◌≤◌, ◌∷◌, [], All, AllPairs, length, IfOk};
ghost use Rattle.nil_num.specs.Outcome.{Gives};
ghost use Rattle.binom_poly.specs.Variable.{step_variable};
ghost use Rattle.poly_subst.specs.Steps.{summed};
ghost use Rattle.hall_table.specs.Order.{generators};
ghost use Rattle.sum_compiler.specs.Calls.{MakesIn, place_of};
ghost use Rattle.sum_compiler.specs.Calls.Call.{sums};
ghost use Rattle.sum_compiler.specs.Putting.{into};
ghost use Rattle.sum_compiler.specs.Summing.{next, next_list, next_step, next_calls, with_sums, sum_calls};

use crate::assigning::{into, polys_after};
use crate::putting::put_in;
use crate::sum_fault::SumFault;
use crate::sum_place::SumPlace;
use crate::sum_step::SumStep;
use binom_poly::{Poly, PolyFault, STEP_VARIABLE, x_of, zero};
use hall_table::Table;
use poly_subst::{Assign, step_sum};
use std::alloc::Global;

/// The sum of a polynomial over t.
fn sum(alloc: Global, place: SumPlace, p: &Poly) -> Result<Poly, SumFault>
    ensures sum { IfOk result (λ q. q ≡ summed step_variable p.now) }
    ensures makes { Gives place_of result (MakesIn (sums place p.now ∷ [])) }
{
    match step_sum(alloc, p, STEP_VARIABLE) {
        Ok(sum) => Ok(sum),
        Err(PolyFault::Wide) => Err(SumFault::Wide(place)),
        Err(PolyFault::Memory) => Err(SumFault::Memory),
    }
}

/// The first entries of a vector that moves with t, and the later ones, where each step multiplies
/// it by others.
pub fn with_sums(
    alloc: Global,
    table: &Table,
    step: SumStep,
    j: u32,
    first: Vec<Poly>,
    steps: Vec<Poly>,
) -> Result<Vec<Poly>, SumFault>
    requires few { length first.items ≤ generators table.now }
    requires size { length steps.items ≡ generators table.now }
    ensures entries { IfOk result (λ polys. polys.items
        ≡ with_sums table.now steps.items first.items (generators table.now - length first.items)) }
    ensures makes { Gives place_of result
        (MakesIn (sum_calls step j table.now steps.items first.items
        (generators table.now - length first.items))) }
{
    let begin = table.level() + first.len() as u32;
    let count = steps.len();
    let mut list = into(alloc, table.level(), first, steps)?;
    for k in begin..table.last() + 1 {
        let place = SumPlace { step, j, k };
        let known = list.len();
        let nothing = zero(alloc);
        list.push(Assign {
            var: x_of(k),
            to: nothing,
        })?;
        let added = put_in(alloc, place, table.lend(k), &list)?;
        let to = sum(alloc, place, &added)?;
        list.truncate(known);
        list.push(Assign { var: x_of(k), to })?;
    }
    Ok(polys_after(alloc, list, count)?)
}
