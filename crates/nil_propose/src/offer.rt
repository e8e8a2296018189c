//! An offered table.

use hall_table::Table;

/// A table that is offered where a level is asked for. It need not be of that level.
#[derive(Drop)]
pub struct Offer {
    pub level: u32,
    pub table: Table,
}
