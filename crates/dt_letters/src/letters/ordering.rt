//! The order of letters.

ghost use Rattle.std.specs.Prelude.{◌≡◌, ◌↔◌, IsTrue};

use super::Letters;
use crate::tree::Tree;
use std::cmp::Ordering;

impl Letters {
    ghost use Rattle.dt_letters.specs.Letters.{depth_of};
    ghost use Rattle.dt_letters.specs.Order.{IsBefore, IsEarlier};
    ghost use Rattle.dt_letters.specs.Meeting.{meet, before, earlier, same_letter, order_of, siblings_order};
    ghost use Rattle.dt_letters.specs.Arena.{IsTreeOf, letter_in};

    /// Whether the letter is before the other.
    pub fn before(&self, a: Tree, b: Tree) -> bool
        requires first { IsTreeOf self.now a }
        requires second { IsTreeOf self.now b }
        ensures rule { IsTrue result ↔ IsBefore (letter_in self.now a) (letter_in self.now b) }
        ensures test { result ≡ before (letter_in self.now a) (letter_in self.now b) }
    {
        self.compare(a, b, self.depth(a), self.depth(b)).is_lt()
    }

    /// Whether the letter is collected earlier than the other.
    pub fn collected_earlier(&self, a: Tree, b: Tree) -> bool
        requires first { IsTreeOf self.now a }
        requires second { IsTreeOf self.now b }
        ensures rule { IsTrue result ↔ IsEarlier (letter_in self.now a) (letter_in self.now b) }
        ensures test { result ≡ earlier (letter_in self.now a) (letter_in self.now b) }
    {
        let low = self.kind(a);
        let high = self.kind(b);
        if low < high {
            true
        } else if high < low {
            false
        } else {
            self.before(a, b)
        }
    }

    /// Whether both are one letter.
    pub fn same(&self, a: Tree, b: Tree) -> bool
        requires first { IsTreeOf self.now a }
        requires second { IsTreeOf self.now b }
        ensures rule { IsTrue result ↔ (letter_in self.now a ≡ letter_in self.now b) }
        ensures test { result ≡ same_letter (letter_in self.now a) (letter_in self.now b) }
    {
        let _forms = &self.forms;
        a.place == b.place
    }

    /// How letters of the given depths compare by the order of before.
    fn compare(&self, a: Tree, b: Tree, low: usize, high: usize) -> Ordering
        requires first { IsTreeOf self.now a }
        requires second { IsTreeOf self.now b }
        requires low { low ≡ depth_of (letter_in self.now a) }
        requires high { high ≡ depth_of (letter_in self.now b) }
        ensures { result ≡ order_of (meet (letter_in self.now a) (letter_in self.now b)) }
    {
        if low < high {
            let left = self.left(b);
            let order = self.compare(a, left, low, high - 1);
            return order.then(Ordering::Less);
        }
        if high < low {
            let left = self.left(a);
            let order = self.compare(left, b, low - 1, high);
            return order.then(Ordering::Greater);
        }
        if low == 0 {
            return self.compare_leaves(a, b);
        }
        let left = self.left(a);
        let other = self.left(b);
        let lefts = self.compare(left, other, low - 1, high - 1);
        if lefts.is_ne() {
            return lefts;
        }
        let right = self.right(a);
        let other = self.right(b);
        let rights = self.compare(right, other, self.depth(right), self.depth(other));
        self.compare_siblings(a, b, rights)
    }

    /// How leaves compare.
    fn compare_leaves(&self, a: Tree, b: Tree) -> Ordering
        requires first { IsTreeOf self.now a }
        requires second { IsTreeOf self.now b }
        requires low { depth_of (letter_in self.now a) ≡ 0 }
        requires high { depth_of (letter_in self.now b) ≡ 0 }
        ensures { result ≡ order_of (meet (letter_in self.now a) (letter_in self.now b)) }
    {
        let sides = self.rank(a).cmp(&self.rank(b));
        sides
            .then(self.kind(a).cmp(&self.kind(b)))
            .then(self.number(a).cmp(&self.number(b)))
    }

    /// How nodes on one left letter compare, by how their right letters compare.
    fn compare_siblings(&self, a: Tree, b: Tree, rights: Ordering) -> Ordering
        requires first { IsTreeOf self.now a }
        requires second { IsTreeOf self.now b }
        ensures { result ≡ siblings_order (letter_in self.now a) (letter_in self.now b) rights }
    {
        let kinds = self.kind(self.right(b)).cmp(&self.kind(self.right(a)));
        match rights {
            Ordering::Less => kinds.then(Ordering::Greater),
            Ordering::Equal => self
                .kind(a)
                .cmp(&self.kind(b))
                .then(self.number(a).cmp(&self.number(b))),
            Ordering::Greater => kinds.then(Ordering::Less),
        }
    }
}
