//! A substitution that is made once.

ghost use Rattle.std.specs.Prelude.{◌≡◌, ◌≢◌, ℕ, ℤ, All, AllPairs, IfOk};
ghost use Rattle.nil_num.specs.Outcome.{Gives, Unless};
ghost use Rattle.binom_poly.specs.Fault.{wide_of};
ghost use Rattle.binom_poly.specs.Monomial.{IsVariable};
ghost use Rattle.binom_poly.specs.Polynomial.{value_of};
ghost use Rattle.poly_subst.specs.Substitute.{replaced, substituted, SubstituteOverflows};

use crate::assign::Assign;
use crate::power_row::PowerRow;
use crate::substituting::{first_rows, substitute_by};
use binom_poly::{Memory, Poly, PolyFault};
use std::alloc::Global;
use std::marker::Model;

/// Polynomials that are put in place of variables, with the binomial coefficients of them that were
/// needed so far.
#[derive(Debug, Drop)]
pub struct Substitution {
    list: Vec<Assign>,
    rows: Vec<PowerRow>,
}

impl Model for Substitution {
    ghost use Rattle.std.specs.Prelude.{List};
    ghost use Rattle.poly_subst.specs.declared.assign.Assign.{Assign};

    ghost Value = { List Assign };

    ghost use Rattle.poly_subst.specs.Rows.{IsPrepared};

    ghost view = { λ s. s.list.items };

    ghost invariant = { λ s. IsPrepared s.list.items s.rows.items };
}

impl Substitution {
    /// The substitution that puts each listed polynomial in place of its variable.
    pub fn new(alloc: Global, list: Vec<Assign>) -> Result<Substitution, Memory>
        requires variables { All (λ assign. IsVariable assign.var) list.items }
        requires different { AllPairs (λ s t. s.var ≢ t.var) list.items }
        ensures { IfOk result (λ s. s ≡ list.items) }
    {
        let rows = first_rows(alloc, list.as_slice())?;
        Ok(Substitution { list, rows })
    }

    /// The polynomial with each listed polynomial put in place of its variable, all at once.
    pub fn apply(&mut self, alloc: Global, p: &Poly) -> Result<Poly, PolyFault>
        ensures substituted { Gives wide_of result
            (Unless (SubstituteOverflows p.now self.old) (substituted p.now self.old)) }
        ensures value { IfOk result (λ q. (a : ℕ → ℤ)
            → value_of a q ≡ value_of (replaced self.old a) p.now) }
        ensures kept { self.new ≡ self.old }
    {
        substitute_by(alloc, p, self.list.as_slice(), self.rows.as_mut_slice())
    }
}
