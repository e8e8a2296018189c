//! Calls of a plan that put polynomials in place of variables.

ghost use Rattle.std.specs.Prelude.{◌≡◌, ◌≢◌, ◌+◌, ◌≤◌, ◌∷◌, [], All, AllPairs, length, IfOk};
ghost use Rattle.nil_num.specs.Outcome.{Gives};
ghost use Rattle.binom_poly.specs.Monomial.{IsVariable};
ghost use Rattle.poly_subst.specs.Substitute.{substituted};
ghost use Rattle.sum_compiler.specs.Calls.{MakesIn, place_of};
ghost use Rattle.sum_compiler.specs.Calls.Call.{puts_in};
ghost use Rattle.sum_compiler.specs.Putting.{put_in, calls_in};

use crate::sum_fault::SumFault;
use crate::sum_place::SumPlace;
use crate::sum_step::SumStep;
use binom_poly::{Poly, PolyFault};
use hall_table::Table;
use poly_subst::{Assign, Substitution, substitute};
use std::alloc::Global;

/// A polynomial with the listed ones in place of variables.
pub fn put_in(alloc: Global, place: SumPlace, p: &Poly, list: &[Assign]) -> Result<Poly, SumFault>
    requires variables { All (λ assign. IsVariable assign.var) list.now }
    requires different { AllPairs (λ s t. s.var ≢ t.var) list.now }
    ensures put { IfOk result (λ q. q ≡ substituted p.now list.now) }
    ensures makes { Gives place_of result (MakesIn (puts_in place p.now list.now ∷ [])) }
{
    match substitute(alloc, p, list) {
        Ok(poly) => {
            let _ = poly.terms();
            Ok(poly)
        }
        Err(PolyFault::Wide) => Err(SumFault::Wide(place)),
        Err(PolyFault::Memory) => Err(SumFault::Memory),
    }
}

/// A polynomial with those of a substitution in place of variables.
fn apply(
    alloc: Global,
    place: SumPlace,
    p: &Poly,
    substitution: &mut Substitution,
) -> Result<Poly, SumFault>
    ensures put { IfOk result (λ q. q ≡ substituted p.now substitution.old) }
    ensures makes { Gives place_of result (MakesIn (puts_in place p.now substitution.old ∷ [])) }
    ensures kept { substitution.new ≡ substitution.old }
{
    match substitution.apply(alloc, p) {
        Ok(poly) => {
            let _ = poly.terms();
            Ok(poly)
        }
        Err(PolyFault::Wide) => Err(SumFault::Wide(place)),
        Err(PolyFault::Memory) => Err(SumFault::Memory),
    }
}

/// The polynomials of generators from a level on, with those of a substitution in place of
/// variables.
pub fn put_in_each(
    alloc: Global,
    step: SumStep,
    j: u32,
    level: u32,
    polys: &[Poly],
    substitution: &mut Substitution,
) -> Result<Vec<Poly>, SumFault>
    requires few { level + length polys.now ≤ 49 }
    ensures put { IfOk result (λ made. made.items ≡ put_in substitution.old polys.now) }
    ensures makes { Gives place_of result
        (MakesIn (calls_in step j level substitution.old polys.now)) }
    ensures kept { substitution.new ≡ substitution.old }
{
    let mut made = Vec::new(alloc);
    for k in level..level + polys.len() as u32 {
        let place = SumPlace { step, j, k };
        let poly = apply(alloc, place, &polys[(k - level) as usize], substitution)?;
        made.push(poly)?;
    }
    Ok(made)
}

/// The polynomials of a table, with those of a substitution in place of variables.
pub fn put_in_table(
    alloc: Global,
    step: SumStep,
    j: u32,
    table: &Table,
    substitution: &mut Substitution,
) -> Result<Vec<Poly>, SumFault>
    ensures put { IfOk result (λ made. made.items ≡ put_in substitution.old table.now.polys) }
    ensures makes { Gives place_of result
        (MakesIn (calls_in step j table.now.level substitution.old table.now.polys)) }
    ensures kept { substitution.new ≡ substitution.old }
{
    let mut made = Vec::new(alloc);
    for k in table.level()..table.last() + 1 {
        let place = SumPlace { step, j, k };
        let poly = apply(alloc, place, table.lend(k), substitution)?;
        made.push(poly)?;
    }
    Ok(made)
}
