//! The polynomials of all types of a level.

ghost use Rattle.std.specs.Prelude.{◌≡◌, ◌+◌, ◌-◌, ◌≤◌, length, IfOk, OnOk, MatchOption};
ghost use Rattle.nil_num.specs.Outcome.{Gives, Unless};
ghost use Rattle.binom_poly.specs.Fault.{wide_of};
ghost use Rattle.binom_poly.specs.Collected.{collected};
ghost use Rattle.dt_letters.specs.Allowed.{exponents_of};
ghost use Rattle.dt_letters.specs.Listing.{trees};
ghost use Rattle.dt_letters.specs.Arena.{IsExtended};
ghost use Rattle.dt_trees.specs.Known.{AreKnown};
ghost use Rattle.dt_trees.specs.Polynomials.{terms_of, TreesOverflow, polys_of, AnyPolyOverflows};

use crate::from_nothing::grow_from_nothing;
use crate::grown::Grown;
use crate::least::trees_of;
use crate::polynomial::tree_poly;
use binom_poly::{Poly, PolyFault};
use dt_letters::Letters;
use nil_pres::Memory;
use std::alloc::{AllocError, Global};

/// The polynomial of the next type at a level, whose trees are then known too. They are taken as
/// they grew, in no order.
fn poly_of(
    alloc: Global,
    letters: &mut Letters,
    level: u32,
    known: &mut Vec<Vec<Grown>>,
    k: u32,
) -> Result<Poly, PolyFault>
    requires level { 1 ≤ level }
    requires most { k ≤ length letters.old.pres.names }
    requires next { k ≡ level + length known.old.items }
    requires known { AreKnown letters.old (exponents_of letters.old.pres) level known.old.items }
    ensures kept { IsExtended letters.old letters.new }
    ensures poly { let e = exponents_of letters.old.pres in Gives wide_of result (Unless
        (TreesOverflow e (trees e level k)) (collected (terms_of e (trees e level k)))) }
    ensures known { OnOk result (AreKnown letters.new (exponents_of letters.new.pres) level
        known.new.items) }
    ensures count { OnOk result (length known.new.items ≡ length known.old.items + 1) }
{
    let _generators = letters.pres().count();
    let ways = grow_from_nothing(alloc, letters, level, known, k)?;
    let trees = trees_of(alloc, &ways)?;
    known.push(ways)?;
    tree_poly(alloc, letters, &trees)
}

/// The polynomials of all types from the level on, unless one of them overflows.
pub fn tree_polys(
    alloc: Global,
    letters: &mut Letters,
    level: u32,
) -> Result<Option<Vec<Poly>>, Memory>
    requires least { 1 ≤ level }
    requires most { level ≤ length letters.old.pres.names }
    ensures kept { IsExtended letters.old letters.new }
    ensures polys { let e = exponents_of letters.old.pres in
        let n = length letters.old.pres.names + 1 - level in
        IfOk result (λ o. MatchOption o (AnyPolyOverflows e level n)
        (λ ps. (ps.items ≡ polys_of e level n) × ¬ AnyPolyOverflows e level n)) }
{
    let count = letters.pres().count();
    let mut known = Vec::new(alloc);
    let mut polys = Vec::new(alloc);
    for place in 0..count + 1 - level {
        match poly_of(alloc, letters, level, &mut known, level + place) {
            Ok(poly) => polys.push(poly)?,
            Err(PolyFault::Wide) => return Ok(None),
            Err(PolyFault::Memory) => return Err(AllocError),
        }
    }
    Ok(Some(polys))
}
