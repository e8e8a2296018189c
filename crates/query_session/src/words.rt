//! The words of a command line.

/// The words of a command line, without the program's name.
#[derive(Drop)]
pub struct Words {
    pub items: Vec<String>,
}
