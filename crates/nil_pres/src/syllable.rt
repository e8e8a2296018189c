//! Syllables of right sides.

/// A generator to a power.
#[derive(Clone, Copy, Debug, PartialEq, Eq)]
pub struct Syllable {
    pub number: u32,
    pub exp: i64,
}
