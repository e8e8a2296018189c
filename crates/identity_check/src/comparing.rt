//! The two sides of an identity, compared.

ghost use Rattle.std.specs.Prelude.{◌≡◌, IfOk};
ghost use Rattle.identity_check.specs.Failures.{point_of};
ghost use Rattle.identity_check.specs.Halts.{Compares};

use crate::failure::{At, Failure};
use crate::halt::Halt;
use crate::identity::Identity;
use binom_poly::{Memory, Part, Poly, first_difference};
use std::alloc::Global;

/// The point whose values are the exponents of a monomial.
fn point_at(alloc: Global, parts: &[Part]) -> Result<Vec<At>, Memory>
    ensures { IfOk result (λ point. point.items ≡ point_of parts.now) }
{
    parts
        .iter()
        .map(|part| At {
            var: part.var,
            value: part.exp,
        })
        .collect(alloc)
}

/// Compares two polynomials, the sides of an identity.
pub fn compare(alloc: Global, identity: Identity, left: &Poly, right: &Poly) -> Result<(), Halt>
    ensures { Compares identity left.now right.now result }
{
    let Some(difference) = first_difference(left, right) else {
        return Ok(());
    };
    let point = point_at(alloc, difference.monomial.parts())?;
    Err(Halt::Failed(Failure {
        identity,
        point,
        left: difference.left,
        right: difference.right,
    }))
}
