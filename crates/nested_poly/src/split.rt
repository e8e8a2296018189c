//! Terms that end with one part, and the others.

ghost use Rattle.std.specs.Prelude.{◌∷◌, All, IfOk, OnOk};
ghost use Rattle.nested_poly.specs.Tails.{HasPart};
ghost use Rattle.nested_poly.specs.Splits.{Adds, IsSplitOf};

use crate::tail::Tail;
use binom_poly::{Memory, Part};
use std::alloc::Global;

/// Terms that end with one part, and the others.
#[derive(Drop)]
pub struct Split<'a> {
    pub part: Part,
    /// The coefficient of the part alone, and 0 where that is no term.
    pub coefficient: i128,
    /// What is left of the terms that have more parts.
    pub below: Vec<Tail<'a>>,
    pub others: Vec<Tail<'a>>,
}

impl<'a> Split<'a> {
    /// Adds a term. Where there is one already that is the part alone, a second is among the others.
    fn add(&mut self, tail: &Tail<'a>) -> Result<(), Memory>
        requires { HasPart tail.now }
        ensures { OnOk result (Adds self.old self.new tail.now) }
    {
        let (rest, last) = tail.parts.split_at(tail.parts.len() - 1);
        if last[0] != self.part {
            self.others.push(*tail)?;
        } else if rest.len() > 0 {
            self.below.push(Tail {
                parts: rest,
                coefficient: tail.coefficient,
            })?;
        } else if self.coefficient == 0 {
            self.coefficient = tail.coefficient;
        } else {
            self.others.push(*tail)?;
        }
        Ok(())
    }

    /// The terms, by the part that the first of them ends with.
    pub fn of(alloc: Global, first: &Tail<'a>, rest: &[Tail<'a>]) -> Result<Split<'a>, Memory>
        requires first { HasPart first.now }
        requires rest { All HasPart rest.now }
        ensures { IfOk result (λ split. IsSplitOf split (first.now ∷ rest.now)) }
    {
        let mut split = Split {
            part: first.parts[first.parts.len() - 1],
            coefficient: 0,
            below: Vec::new(alloc),
            others: Vec::new(alloc),
        };
        split.add(first)?;
        for tail in rest {
            split.add(tail)?;
        }
        Ok(split)
    }
}
