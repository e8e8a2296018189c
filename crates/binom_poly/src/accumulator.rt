//! A polynomial from contributions that come one by one, where each of them counts by its
//! magnitude, before anything cancels.

ghost use Rattle.std.specs.Prelude.{◌≡◌, [], ◌∷◌, ◌++◌, ℕ, ℤ, List, IfOk, IfErr};
ghost use Rattle.binom_poly.specs.Monomial.{IsMonomial};
ghost use Rattle.binom_poly.specs.Polynomial.{value_of};
ghost use Rattle.binom_poly.specs.Times.{contribution};
ghost use Rattle.binom_poly.specs.Collected.{collected};
ghost use Rattle.binom_poly.specs.Sums.{Holds};
ghost use Rattle.binom_poly.specs.Weight.{DoOverflow};
ghost use Rattle.binom_poly.specs.declared.term.Term.{Term};

use crate::fault::{Memory, PolyFault};
use crate::monomial::Monomial;
use crate::poly::Poly;
use crate::sums::Sums;
use nil_num::MAX;
use std::alloc::Global;
use std::marker::Model;

/// The contributions so far: their sums by monomial, and the sums of their magnitudes.
#[derive(Drop)]
pub struct Accumulator {
    sums: Sums,
}

impl Model for Accumulator {
    ghost use Rattle.std.specs.Prelude.{List};
    ghost use Rattle.binom_poly.specs.declared.part.Part.{Part};
    ghost use Rattle.binom_poly.specs.declared.sums.Sum.{Sum};

    ghost Value = { List (List Part × Sum) };

    ghost view = { λ a. a.sums };
}

impl Accumulator {
    /// No contributions.
    pub fn new(alloc: Global) -> Accumulator
        ensures { Holds result [] }
    {
        Accumulator {
            sums: Sums::new(alloc),
        }
    }

    /// Adds a contribution: `Wide` exactly where those so far and this one overflow. A refusal
    /// takes the contributions with it.
    pub fn add(
        self,
        alloc: Global,
        monomial: &Monomial,
        coefficient: i128,
    ) -> Result<Accumulator, PolyFault>
        requires form { IsMonomial monomial.now }
        ensures holds { IfOk result (λ more. (cs : List Term) → Holds self cs
            → Holds more (cs ++ contribution monomial.now coefficient ∷ [])) }
        ensures fits { IfOk result (λ _. (cs : List Term) → Holds self cs
            → ¬ DoOverflow (cs ++ contribution monomial.now coefficient ∷ [])) }
        ensures wide { IfErr result (λ fault. fault ≡ PolyFault.Wide → (cs : List Term)
            → Holds self cs → DoOverflow (cs ++ contribution monomial.now coefficient ∷ [])) }
    {
        if coefficient < -MAX {
            return Err(PolyFault::Wide);
        }
        let Accumulator { mut sums } = self;
        sums.add(alloc, monomial, coefficient)?;
        Ok(Accumulator { sums })
    }

    /// The polynomial that the contributions make.
    pub fn into_poly(self, alloc: Global) -> Result<Poly, Memory>
        ensures collected { IfOk result (λ p. (cs : List Term) → Holds self cs
            → p ≡ collected cs) }
        ensures value { IfOk result (λ p. (cs : List Term) → Holds self cs
            → (a : ℕ → ℤ) → value_of a p ≡ value_of a cs) }
        ensures fits { (cs : List Term) → Holds self cs → ¬ DoOverflow cs }
    {
        let Accumulator { sums } = self;
        let terms = sums.into_terms(alloc)?;
        Ok(Poly::of(terms))
    }
}

#[cfg(test)]
mod tests {
    use crate::*;
    use std::test::Fail;

    #[test]
    fn halves_count_before_they_cancel(rt: HostRuntime) -> Result<(), Fail> {
        let alloc = rt.alloc();
        let half = i128::MAX / 2;
        let x = var(alloc, 1)?;
        assert!(rt; x.terms().len() == 1);
        for term in x.terms() {
            let monomial = term.monomial.copy(alloc)?;
            let one = Accumulator::new(alloc).add(alloc, &monomial, half)?;
            let two = one.add(alloc, &monomial, -half)?;
            assert!(rt; two.add(alloc, &monomial, half).is_err());
            let one = Accumulator::new(alloc).add(alloc, &monomial, half)?;
            let two = one.add(alloc, &monomial, 1 - half)?;
            assert!(rt; same(&two.into_poly(alloc)?, &x));
        }
        Ok(())
    }
}
