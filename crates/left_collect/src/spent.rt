//! The end of a budget.

/// The budget of letters is spent.
#[derive(Debug, Drop)]
pub(crate) struct Spent;
