//! Groups of letters: raising the numbers of one, and the greatest of them.

ghost use Rattle.std.specs.Prelude.{◌≡◌, ℕ, ◌-◌, ◌^◌, ◌<◌, IsTrue, IfOk};

use super::Letters;
use crate::form::Form;
use crate::side::Side;
use crate::tree::Tree;
use nil_pres::Memory;

impl Letters {
    ghost use Rattle.dt_letters.specs.Letters.{leaves, nodes, group_of, number_of, IsBelow};
    ghost use Rattle.dt_letters.specs.Growth.{raise, raised};
    ghost use Rattle.dt_letters.specs.Least.{greatest_in, own_number};
    ghost use Rattle.dt_letters.specs.Meeting.{same_group};
    ghost use Rattle.dt_letters.specs.Arena.{IsExtended, IsTreeOf, IsTreeFor, letter_in};

    /// The letter with the numbers of the group of a member one higher, from that of the member on.
    pub fn raise(&mut self, a: Tree, member: Tree) -> Result<Tree, Memory>
        requires first { IsTreeOf self.old a }
        requires second { IsTreeOf self.old member }
        requires small { IsBelow (2 ^ 64 - 1) (letter_in self.old a) }
        ensures kept { IsExtended self.old self.new }
        ensures letter { IfOk result (λ t. IsTreeFor self.new t
            (raised (group_of (letter_in self.old member)) (number_of (letter_in self.old member))
            (letter_in self.old a))) }
    {
        if self.is_early(a, member) {
            return Ok(a);
        }
        let number = self.raised_number(a, member);
        match self.form(a) {
            Form::Leaf {
                side,
                kind,
                number: own,
            } => {
                if number == own {
                    return Ok(a);
                }
                self.put(Form::Leaf { side, kind, number })
            }
            Form::Node {
                left,
                right,
                kind,
                number: own,
            } => {
                let low = self.raise(left, member)?;
                let high = self.raise(right, member)?;
                if number == own && self.same(low, left) && self.same(high, right) {
                    return Ok(a);
                }
                self.put(Form::Node {
                    left: low,
                    right: high,
                    kind,
                    number,
                })
            }
        }
    }

    /// The greatest number of the group of a member in the letter, and 0 where it has none.
    pub fn greatest(&self, a: Tree, member: Tree) -> u64
        requires first { IsTreeOf self.now a }
        requires second { IsTreeOf self.now member }
        ensures { result ≡ greatest_in (group_of (letter_in self.now member))
            (letter_in self.now a) }
    {
        if self.is_early(a, member) {
            return 0;
        }
        let own = self.own_number(a, member);
        match self.form(a) {
            Form::Leaf { .. } => own,
            Form::Node { left, right, .. } => {
                let low = self.greatest(left, member);
                let high = self.greatest(right, member);
                own.max(low.max(high))
            }
        }
    }

    /// Whether the letter stands before a half of a member. Then the group isn't in it.
    fn is_early(&self, a: Tree, member: Tree) -> bool
        requires first { IsTreeOf self.now a }
        requires second { IsTreeOf self.now member }
        ensures raised { IsTrue result → (n : ℕ) → raised (group_of (letter_in self.now member)) n
            (letter_in self.now a) ≡ letter_in self.now a }
        ensures greatest { IsTrue result → greatest_in (group_of (letter_in self.now member))
            (letter_in self.now a) ≡ 0 }
    {
        let _forms = &self.forms;
        match self.form(member) {
            Form::Leaf { .. } => false,
            Form::Node { left, right, .. } => a.place <= left.place || a.place <= right.place,
        }
    }

    /// The number of the letter where it is of the group of a member, else 0.
    fn own_number(&self, a: Tree, member: Tree) -> u64
        requires first { IsTreeOf self.now a }
        requires second { IsTreeOf self.now member }
        ensures { result ≡ own_number (group_of (letter_in self.now member))
            (group_of (letter_in self.now a)) (number_of (letter_in self.now a)) }
    {
        if self.is_same_group(member, a) {
            self.number(a)
        } else {
            0
        }
    }

    /// The number of the letter after the group of a member is raised.
    fn raised_number(&self, a: Tree, member: Tree) -> u64
        requires first { IsTreeOf self.now a }
        requires second { IsTreeOf self.now member }
        requires small { number_of (letter_in self.now a) < 2 ^ 64 - 1 }
        ensures { result ≡ raise (group_of (letter_in self.now member))
            (number_of (letter_in self.now member)) (group_of (letter_in self.now a))
            (number_of (letter_in self.now a)) }
    {
        let number = self.number(a);
        if self.is_same_group(member, a) && self.number(member) <= number {
            number + 1
        } else {
            number
        }
    }

    /// Whether both letters are of one group.
    pub fn is_same_group(&self, a: Tree, b: Tree) -> bool
        requires first { IsTreeOf self.now a }
        requires second { IsTreeOf self.now b }
        ensures { result ≡ same_group (group_of (letter_in self.now a))
            (group_of (letter_in self.now b)) }
    {
        match self.form(a) {
            Form::Leaf { side, kind, .. } => self.is_leaf_of(b, side, kind),
            Form::Node {
                left,
                right,
                kind,
                ..
            } => self.is_node_of(b, left, right, kind),
        }
    }

    /// Whether the letter is a leaf of a side and a type.
    fn is_leaf_of(&self, a: Tree, side: Side, kind: u32) -> bool
        requires { IsTreeOf self.now a }
        ensures { result ≡ same_group (leaves side kind) (group_of (letter_in self.now a)) }
    {
        match self.form(a) {
            Form::Leaf {
                side: own,
                kind: own_kind,
                ..
            } => side.rank() == own.rank() && kind == own_kind,
            Form::Node { .. } => false,
        }
    }

    /// Whether the letter is a node of two letters and a type.
    fn is_node_of(&self, a: Tree, left: Tree, right: Tree, kind: u32) -> bool
        requires tree { IsTreeOf self.now a }
        requires first { IsTreeOf self.now left }
        requires second { IsTreeOf self.now right }
        ensures { result ≡ same_group
            (nodes (letter_in self.now left) (letter_in self.now right) kind)
            (group_of (letter_in self.now a)) }
    {
        match self.form(a) {
            Form::Leaf { .. } => false,
            Form::Node {
                left: own,
                right: other,
                kind: own_kind,
                ..
            } => { self.same(left, own) && self.same(right, other) && kind == own_kind }
        }
    }
}
