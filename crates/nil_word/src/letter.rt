//! Letters of words.

/// A generator, or its inverse where `up` is false. Generators are numbered from 1.
#[derive(Clone, Copy, Debug, PartialEq, Eq)]
pub struct Letter {
    pub number: u32,
    pub up: bool,
}
