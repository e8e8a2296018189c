//! Compiled presentations.

use super::asked::Asked;
use super::origin::Origin;
use hall_table::Checked;

/// A presentation with its table. `by` tells where the tables of the levels come from, from the
/// last generator down, and `asked` all proposers whose table wasn't taken, in order.
#[derive(Drop)]
pub struct Compiled {
    pub checked: Checked,
    pub by: Vec<Origin>,
    pub asked: Vec<Asked>,
}
