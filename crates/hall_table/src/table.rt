//! Tables.

ghost use Rattle.std.specs.Prelude.{◌≡◌, ℕ, ℤ, ◌+◌, ◌-◌, ◌<◌, ◌≤◌, length, IfOk, OnOk, IfErr};
ghost use Rattle.binom_poly.specs.Polynomial.{value_of};

use super::Memory;
use super::shaping::has_shape;
use super::table_of_fault::TableOfFault;
use super::tailing::from_level;
use binom_poly::{Poly, copy};
use nested_poly::Forest;
use std::alloc::Global;
use std::marker::Model;

/// The greatest number of generators.
pub const GENERATOR_LIMIT: usize = 48;

/// A multiplication table's polynomials: for each generator from its level on one, which is
/// `x_k + y_k` plus terms in variables of generators from the level on and below `k`.
#[derive(Drop)]
pub struct Table {
    pub(super) level: u32,
    pub(super) polys: Vec<Poly>,
    pub(super) forest: Forest,
}

impl Model for Table {
    ghost use Rattle.hall_table.specs.Tabled.{Tabled, IsTabled};
    ghost use Rattle.nested_poly.specs.Trees.{AreNests};

    ghost Value = { Tabled };

    ghost view = { λ t. record { level = t.level; polys = t.polys.items } };

    ghost invariant = { λ t. IsTabled record { level = t.level; polys = t.polys.items }
        × AreNests t.forest t.polys.items };
}

impl Table {
    ghost use Rattle.hall_table.specs.Tabled.{IsTabled, AreShaped, IsFirstUnshaped, last_of, poly_at};
    ghost use Rattle.hall_table.specs.Tail.{at_level, tail_of};

    /// The table of the polynomials from a level on.
    pub fn of(alloc: Global, level: u32, polys: Vec<Poly>) -> Result<Table, TableOfFault>
        requires least { 1 ≤ level }
        requires nonempty { 0 < length polys.items }
        requires most { level + length polys.items ≤ GENERATOR_LIMIT + 1 }
        ensures table { IfOk result (λ t. t ≡ record { level = level; polys = polys.items }) }
        ensures shaped { OnOk result (AreShaped level polys.items) }
        ensures unshaped { IfErr result (λ fault. (k : ℕ) → fault ≡ TableOfFault.Shape k
            → IsFirstUnshaped level polys.items k) }
    {
        for (place, poly) in polys.iter().enumerate() {
            let k = level + place as u32;
            if !has_shape(poly, level, k) {
                return Err(TableOfFault::Shape(k));
            }
        }
        let Ok(forest) = Forest::of(alloc, &polys) else {
            return Err(TableOfFault::Memory);
        };
        Ok(Table {
            level,
            polys,
            forest,
        })
    }

    /// The first generator.
    pub fn level(&self) -> u32
        ensures level { result ≡ self.now.level }
        ensures form { IsTabled self.now }
    {
        self.level
    }

    /// The last generator.
    pub fn last(&self) -> u32
        ensures last { result ≡ last_of self.now }
        ensures form { IsTabled self.now }
    {
        self.level + self.polys.len() as u32 - 1
    }

    /// The polynomial of a generator.
    pub fn poly(&self, alloc: Global, k: u32) -> Result<Poly, Memory>
        requires least { self.now.level ≤ k }
        requires most { k ≤ last_of self.now }
        ensures { IfOk result (λ p. p ≡ poly_at self.now k) }
    {
        copy(alloc, &self.polys[(k - self.level) as usize])
    }

    /// An equal table.
    pub fn copy(&self, alloc: Global) -> Result<Table, Memory>
        ensures { IfOk result (λ t. t ≡ self.now) }
    {
        let mut polys = Vec::with_capacity(alloc, self.polys.len())?;
        for poly in &self.polys {
            polys.push(copy(alloc, poly)?)?;
        }
        let forest = Forest::of(alloc, &polys)?;
        Ok(Table {
            level: self.level,
            polys,
            forest,
        })
    }

    /// The table from a level on, with the variables below the level set to 0.
    pub fn tail(&self, alloc: Global, level: u32) -> Result<Table, Memory>
        requires least { self.now.level ≤ level }
        requires most { level ≤ last_of self.now }
        ensures tail { IfOk result (λ t. t ≡ tail_of self.now level) }
        ensures values { IfOk result (λ t. (k : ℕ) (a : ℕ → ℤ) → level ≤ k → k ≤ last_of self.now
            → value_of a (poly_at t k) ≡ value_of (at_level level a) (poly_at self.now k)) }
    {
        let mut polys = Vec::new(alloc);
        for poly in &self.polys[(level - self.level) as usize..] {
            polys.push(from_level(alloc, poly, level)?)?;
        }
        let forest = Forest::of(alloc, &polys)?;
        Ok(Table {
            level,
            polys,
            forest,
        })
    }
}
