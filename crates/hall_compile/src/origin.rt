//! Where tables come from.

/// Where the table of a level comes from: it is that of the last generator, that of the proposer
/// with this label, or the table of the sum plan.
#[derive(Clone, Copy, PartialEq, Eq, Debug, Drop)]
pub enum Origin {
    Base,
    Proposer(u32),
    Sum,
}
