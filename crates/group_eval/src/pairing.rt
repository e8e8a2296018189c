//! What is made of two elements.

ghost use Rattle.std.specs.Prelude.{◌≡◌, [], ◌∷◌};
ghost use Rattle.nil_num.specs.Outcome.{Gives, Writes};
ghost use Rattle.hall_table.specs.Multiplies.{IsChecked};
ghost use Rattle.hall_table.specs.Tabled.{last_of};
ghost use Rattle.group_eval.specs.Fault.{place_of};
ghost use Rattle.group_eval.specs.Order.{paired};
ghost use Rattle.group_eval.specs.Space.{AreOf, HaveEntries, IsSpaceOf};

use super::commuting::{commutator, conjugate};
use super::dividing::quotient;
use super::eval_fault::Evaluated;
use super::solving::solve;
use super::workspace::Workspace;
use hall_table::{Checked, WideAt};
use nil_word::Vector;
use std::alloc::Global;

/// What is made of two elements `a` and `b`.
#[derive(Clone, Copy)]
pub(super) enum Pairing {
    /// The `x` with `a x = b`.
    Solution,
    /// `a b^-1`.
    Quotient,
    /// `a^b`.
    Conjugate,
    /// `[a,b]`.
    Commutator,
}

/// Writes what is made of two vectors.
fn pair_into(
    ws: &mut Workspace,
    checked: &Checked,
    pairing: Pairing,
    a: &Vector,
    b: &Vector,
    out: &mut Vector,
) -> Result<(), WideAt>
    requires vectors { AreOf checked.now (a.now ∷ b.now ∷ out.old ∷ []) }
    requires ws { IsSpaceOf ws.old checked.now }
    ensures order { Writes result out.new (paired checked.now.table pairing a.now b.now) }
    ensures ws { IsSpaceOf ws.new checked.now }
{
    match pairing {
        Pairing::Solution => solve(ws, checked, a, b, out),
        Pairing::Quotient => quotient(ws, checked, a, b, out),
        Pairing::Conjugate => conjugate(ws, checked, a, b, out),
        Pairing::Commutator => commutator(ws, checked, a, b, out),
    }
}

/// What is made of two vectors.
pub(super) fn pair(
    alloc: Global,
    ws: &mut Workspace,
    checked: &Checked,
    pairing: Pairing,
    a: &Vector,
    b: &Vector,
) -> Evaluated
    requires vectors { HaveEntries (last_of checked.now.table) (a.now ∷ b.now ∷ []) }
    requires ws { IsSpaceOf ws.old checked.now }
    ensures order { Gives place_of result (λ r. paired checked.now.table pairing a.now b.now ≡ r) }
    ensures ws { IsSpaceOf ws.new checked.now }
{
    let mut out = Vector::zero(alloc, checked.pres().count())?;
    pair_into(ws, checked, pairing, a, b, &mut out)?;
    Ok(out)
}
