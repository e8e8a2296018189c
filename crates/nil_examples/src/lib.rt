//! Example presentations, and a load of queries that is made up for one of them. Sizes are refused
//! exactly where they are out of range.
#![tactic(auto)]

mod draws;
mod example;
mod example_fault;
mod free;
mod loads;
mod matrices;
mod places;
mod presenting;
mod sizes;
#[cfg(test)]
mod tests;

pub use example_fault::ExampleFault;
pub use free::free_class_two;
pub use loads::load_queries;
pub use matrices::unitriangular;
