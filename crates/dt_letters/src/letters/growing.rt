//! What the growing of trees asks of an arena.

ghost use Rattle.std.specs.Prelude.{◌≡◌, ℕ, IfOk};

use super::Letters;
use crate::form::Form;
use crate::tree::Tree;
use nil_pres::Memory;

impl Letters {
    ghost use Rattle.dt_letters.specs.Letters.{group_of, member};
    ghost use Rattle.dt_letters.specs.Allowed.{exponents_of};
    ghost use Rattle.dt_letters.specs.Listing.{may_join};
    ghost use Rattle.dt_letters.specs.Arena.{IsExtended, IsTreeOf, IsTreeFor, letter_in};

    /// The letter of the same group with another number, whether the rules allow it or not.
    pub fn member(&mut self, a: Tree, number: u64) -> Result<Tree, Memory>
        requires { IsTreeOf self.old a }
        ensures kept { IsExtended self.old self.new }
        ensures letter { IfOk result (λ t. IsTreeFor self.new t
            (member (group_of (letter_in self.old a)) number)) }
    {
        match self.form(a) {
            Form::Leaf { side, kind, .. } => self.put(Form::Leaf { side, kind, number }),
            Form::Node {
                left,
                right,
                kind,
                ..
            } => self.put(Form::Node {
                left,
                right,
                kind,
                number,
            }),
        }
    }

    /// Whether two letters may be joined, where the right side of their pair has the type.
    pub fn may_join(&self, left: Tree, right: Tree) -> bool
        requires first { IsTreeOf self.now left }
        requires second { IsTreeOf self.now right }
        ensures { (k : ℕ) → result ≡ may_join (exponents_of self.now.pres)
            (letter_in self.now left) (letter_in self.now right) k }
    {
        self.kind(right) < self.kind(left) && self.before(left, right) && self.goes_on(left, right)
    }
}
