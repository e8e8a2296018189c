//! What a letter is made of.

ghost use Rattle.std.specs.Prelude.{◌≡◌, ◌≤◌, ◌<◌};
ghost use Rattle.dt_letters.specs.Allowed.{exponent_in};

use super::Letters;
use crate::form::Form;
use crate::tree::Tree;
use nil_pres::Syllable;

impl Letters {
    ghost use Rattle.dt_letters.specs.Letters.{kind_of, number_of, depth_of, left_of, right_of};
    ghost use Rattle.dt_letters.specs.Allowed.{exponents_of};
    ghost use Rattle.dt_letters.specs.Meeting.{leaf_rank};
    ghost use Rattle.dt_letters.specs.Arena.{IsTreeOf, letter_in};

    /// The left letter of a node.
    pub(super) fn left(&self, a: Tree) -> Tree
        requires { IsTreeOf self.now a }
        ensures tree { IsTreeOf self.now result }
        ensures letter { letter_in self.now result ≡ left_of (letter_in self.now a) }
        ensures smaller { 0 < depth_of (letter_in self.now a) → result.place < a.place }
    {
        match self.form(a) {
            Form::Leaf { .. } => a,
            Form::Node { left, .. } => left,
        }
    }

    /// The right letter of a node.
    pub(super) fn right(&self, a: Tree) -> Tree
        requires { IsTreeOf self.now a }
        ensures tree { IsTreeOf self.now result }
        ensures letter { letter_in self.now result ≡ right_of (letter_in self.now a) }
        ensures smaller { 0 < depth_of (letter_in self.now a) → result.place < a.place }
    {
        match self.form(a) {
            Form::Leaf { .. } => a,
            Form::Node { right, .. } => right,
        }
    }

    /// The type of the letter.
    pub fn kind(&self, a: Tree) -> u32
        requires { IsTreeOf self.now a }
        ensures { result ≡ kind_of (letter_in self.now a) }
    {
        match self.form(a) {
            Form::Leaf { kind, .. } => kind,
            Form::Node { kind, .. } => kind,
        }
    }

    /// The number of the letter.
    pub(super) fn number(&self, a: Tree) -> u64
        requires { IsTreeOf self.now a }
        ensures { result ≡ number_of (letter_in self.now a) }
    {
        match self.form(a) {
            Form::Leaf { number, .. } => number,
            Form::Node { number, .. } => number,
        }
    }

    /// The place of the side of a leaf in the order of leaves.
    pub(super) fn rank(&self, a: Tree) -> u32
        requires { IsTreeOf self.now a }
        ensures { result ≡ leaf_rank (letter_in self.now a) }
    {
        match self.form(a) {
            Form::Leaf { side, .. } => side.rank(),
            Form::Node { .. } => 0,
        }
    }

    /// How many links the chain of the letter has below it.
    pub(super) fn depth(&self, a: Tree) -> usize
        requires { IsTreeOf self.now a }
        ensures depth { result ≡ depth_of (letter_in self.now a) }
        ensures small { result ≤ a.place }
    {
        match self.form(a) {
            Form::Leaf { .. } => 0,
            Form::Node { left, .. } => self.depth(left) + 1,
        }
    }

    /// The exponent of a type in the right side of a pair.
    pub fn exponent(&self, q: u32, p: u32, k: u32) -> i64
        ensures { result ≡ exponents_of self.now.pres q p k }
    {
        if q < 1 || p <= q || self.pres.count() < p {
            return 0;
        }
        exponent_in(self.pres.right_side(p, q), k)
    }
}

/// The exponent of a generator in a right side.
fn exponent_in(right: &[Syllable], k: u32) -> i64
    ensures { result ≡ exponent_in right.now k }
{
    for syllable in right {
        if syllable.number == k {
            return syllable.exp;
        }
    }
    0
}
