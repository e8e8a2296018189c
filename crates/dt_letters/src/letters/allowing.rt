//! Which nodes the rules allow.

ghost use Rattle.std.specs.Prelude.{◌≡◌, ◌↔◌, IsTrue};
ghost use Rattle.dt_letters.specs.Allowed.{is_in_range};

use super::Letters;
use crate::form::Form;
use crate::tree::Tree;

impl Letters {
    ghost use Rattle.dt_letters.specs.Allowed.{exponents_of, is_allowed, goes_on};
    ghost use Rattle.dt_letters.specs.Arena.{IsTreeOf, letter_in};

    /// Whether the rules allow the node.
    pub(super) fn is_allowed(&self, left: Tree, right: Tree, kind: u32, number: u64) -> bool
        requires first { IsTreeOf self.now left }
        requires second { IsTreeOf self.now right }
        ensures { result ≡ is_allowed (exponents_of self.now.pres) (letter_in self.now left)
            (letter_in self.now right) kind number }
    {
        let low = self.kind(right);
        let high = self.kind(left);
        let exponent = self.exponent(low, high, kind);
        low < high
            && exponent != 0
            && is_in_range(exponent, number)
            && self.before(left, right)
            && self.goes_on(left, right)
    }

    /// Whether the right letter of the left one, where that is a node, is collected earlier.
    pub(super) fn goes_on(&self, left: Tree, right: Tree) -> bool
        requires first { IsTreeOf self.now left }
        requires second { IsTreeOf self.now right }
        ensures { result ≡ goes_on (letter_in self.now left) (letter_in self.now right) }
    {
        match self.form(left) {
            Form::Leaf { .. } => true,
            Form::Node { right: own, .. } => self.collected_earlier(own, right),
        }
    }
}

/// Whether a number is within the range of an exponent.
fn is_in_range(exponent: i64, number: u64) -> bool
    ensures { result ≡ is_in_range exponent number }
{
    1 <= number && (exponent <= 0 || number <= exponent as u64)
}
