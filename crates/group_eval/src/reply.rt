//! Replies.

use nil_word::Vector;

/// What a query is answered. `Wide`: a value on the way overflowed 128 bits. `Nothing`: it asked
/// nothing.
#[derive(Drop)]
pub enum Reply {
    Vector(Vector),
    Yes,
    No,
    Wide,
    Nothing,
}
