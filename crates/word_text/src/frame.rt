//! Open brackets.

use super::bracket::Bracket;
use super::level::Level;

/// An open bracket, and the level around it.
#[derive(Drop)]
pub struct Frame {
    pub level: Level,
    pub bracket: Bracket,
}
