//! Where an identity fails.

ghost use Rattle.std.specs.Prelude.{◌≡◌, IfOk, string_bytes};
ghost use Rattle.identity_check.specs.Texts.{failure_text};

use crate::Memory;
use crate::identity::Identity;
use crate::texts::put_failure;
use std::alloc::Global;

/// The value of a variable.
#[derive(Clone, Copy, PartialEq, Eq, Debug, Drop)]
pub struct At {
    pub var: u32,
    pub value: u32,
}

/// The first identity that fails: a point at which the values of its two sides differ by
/// `left - right`, where variables that aren't listed are 0.
#[derive(PartialEq, Eq, Debug, Drop)]
pub struct Failure {
    pub identity: Identity,
    pub point: Vec<At>,
    pub left: i128,
    pub right: i128,
}

impl Failure {
    /// The identity, the point, and the two numbers.
    pub fn text(&self, alloc: Global) -> Result<String, Memory>
        ensures { IfOk result (λ text. string_bytes text ≡ failure_text self.now) }
    {
        let mut text = String::new(alloc);
        put_failure(&mut text, self)?;
        Ok(text)
    }
}
