//! Products of powers by a table.

ghost use Rattle.std.specs.Prelude.{◌≡◌, length, IfOk};
ghost use Rattle.nil_num.specs.Outcome.{Gives};
ghost use Rattle.hall_table.specs.Order.{generators};
ghost use Rattle.sum_compiler.specs.Calls.{MakesIn, place_of};
ghost use Rattle.sum_compiler.specs.Putting.{to_power, put_in, calls_in};
ghost use Rattle.sum_compiler.specs.Joining.{times, times_calls};

use crate::assigning::{into, to_power};
use crate::putting::{put_in_each, put_in_table};
use crate::sum_fault::SumFault;
use crate::sum_step::SumStep;
use binom_poly::Poly;
use hall_table::Table;
use poly_subst::Substitution;
use std::alloc::Global;

/// A vector of polynomials to the power of another polynomial.
pub fn power(
    alloc: Global,
    step: SumStep,
    j: u32,
    table: &Table,
    powers: &[Poly],
    vector: Vec<Poly>,
    exponent: Poly,
) -> Result<Vec<Poly>, SumFault>
    requires powers { length powers.now ≡ generators table.now }
    requires vector { length vector.items ≡ generators table.now }
    ensures power { IfOk result (λ polys. polys.items
        ≡ put_in (to_power table.now.level vector.items exponent) powers.now) }
    ensures makes { Gives place_of result
        (MakesIn (calls_in step j table.now.level (to_power table.now.level vector.items exponent)
        powers.now)) }
{
    let level = table.level();
    let list = to_power(alloc, level, vector, exponent)?;
    let mut substitution = Substitution::new(alloc, list)?;
    put_in_each(alloc, step, j, level, powers, &mut substitution)
}

/// The product of two vectors of polynomials.
pub fn times(
    alloc: Global,
    step: SumStep,
    j: u32,
    table: &Table,
    xs: Vec<Poly>,
    ys: Vec<Poly>,
) -> Result<Vec<Poly>, SumFault>
    requires xs { length xs.items ≡ generators table.now }
    requires ys { length ys.items ≡ generators table.now }
    ensures times { IfOk result (λ polys. polys.items ≡ times table.now xs.items ys.items) }
    ensures makes { Gives place_of result
        (MakesIn (times_calls step j table.now xs.items ys.items)) }
{
    let list = into(alloc, table.level(), xs, ys)?;
    let mut substitution = Substitution::new(alloc, list)?;
    put_in_table(alloc, step, j, table, &mut substitution)
}
