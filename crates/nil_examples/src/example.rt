//! The generators of an example, and their commutators.

ghost use Rattle.std.specs.Prelude.{◌≡◌, ◌<◌, ◌≤◌};
ghost use Rattle.nil_examples.specs.Free.{pairs, bracket};
ghost use Rattle.nil_examples.specs.Examples.{count_of, power_of};

use super::places::{Place, commutators};
use nil_pres::Syllable;

/// Which example it is: matrices with generators at some places, or the free group of class two
/// with so many generators.
#[derive(Drop)]
pub enum Example {
    Matrices(Vec<Place>),
    Free(u32),
}

impl Example {
    /// How many generators there are.
    pub(crate) fn count(&self) -> u32
        requires { count_of self.now ≤ 48 }
        ensures { result ≡ count_of self.now }
    {
        match self {
            Example::Matrices(places) => places.len() as u32,
            Example::Free(r) => *r + pairs(*r),
        }
    }

    /// What the commutator of a later generator with an earlier one is equal to, where they don't
    /// commute.
    pub(crate) fn power(&self, j: u32, i: u32) -> Option<Syllable>
        requires few { count_of self.now ≤ 48 }
        requires least { 1 ≤ i }
        requires below { i < j }
        requires most { j ≤ count_of self.now }
        ensures { result ≡ power_of self.now i j }
    {
        match self {
            Example::Matrices(places) => commutators(places.as_slice(), j, i),
            Example::Free(r) => bracket(*r, j, i),
        }
    }
}

/// How many pairs of so many generators there are.
pub(crate) fn pairs(k: u32) -> u32
    requires { k ≤ 48 }
    ensures pairs { result ≡ pairs k }
    ensures most { result ≤ 1128 }
{
    let less = k.saturating_sub(1);
    let ordered = k * less;
    ordered / 2
}

/// The generator that the commutator of two of the first generators is equal to.
fn bracket(r: u32, j: u32, i: u32) -> Option<Syllable>
    requires few { r ≤ 48 }
    requires least { 1 ≤ i }
    requires below { i < j }
    ensures { result ≡ bracket r i j }
{
    if j <= r {
        Some(Syllable {
            number: r + pairs(j - 1) + i,
            exp: 1,
        })
    } else {
        None
    }
}
