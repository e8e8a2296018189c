//! Multiplication tables of level 1 as JSON text: a table is written as one text, and every byte
//! sequence is read as the table that it says, or refused with its first fault.
//! Not promised: that a table multiplies in a presentation.
#![tactic(auto)]

mod decimals;
mod heads;
mod key;
pub mod laws;
mod next;
mod parts;
mod polynomials;
mod reading;
mod table_fault;
mod terms;
mod writing;

pub use key::Key;
pub use reading::read_table;
pub use table_fault::TableFault;
pub use writing::write_table;

#[cfg(test)]
mod tests;
