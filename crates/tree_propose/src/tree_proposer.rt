//! The proposer of trees.

ghost use Rattle.std.specs.Prelude.{◌≡◌, ℕ, ◌≤◌, length, IfOk};

use crate::sameness::are_same;
use crate::table::tree_table;
use dt_letters::Letters;
use hall_table::{Memory, Table};
use nil_pres::Presentation;
use nil_propose::Proposer;
use std::alloc::Global;
use std::marker::Model;

/// Gives the table of the polynomials of the least trees. It keeps the letters that it found, and
/// begins anew where it is asked of another presentation.
#[derive(Drop)]
pub struct TreeProposer {
    label: u32,
    letters: Option<Letters>,
}

impl Model for TreeProposer {
    ghost use Rattle.std.specs.Prelude.{ℕ};

    ghost Value = { ℕ };

    ghost view = { λ s. s.label };
}

impl Proposer for TreeProposer {
    ghost use Rattle.tree_propose.specs.Giving.{tree_table};

    ghost gives = { λ _ pres level. tree_table pres level };

    ghost named = { λ s. s };

    fn propose(
        &mut self,
        alloc: Global,
        pres: &Presentation,
        level: u32,
    ) -> Result<Option<Table>, Memory> {
        let mut letters = self.letters_over(alloc, pres)?;
        let table = tree_table(alloc, &mut letters, level);
        self.letters = Some(letters);
        table
    }

    fn label(&self) -> u32 {
        self.label
    }
}

impl TreeProposer {
    /// A proposer with a label, and no letters.
    pub fn new(label: u32) -> TreeProposer
        ensures { result ≡ label }
    {
        TreeProposer {
            label,
            letters: None,
        }
    }

    /// The letters that were kept, where they are over the presentation, and else an empty arena.
    fn letters_over(&mut self, alloc: Global, pres: &Presentation) -> Result<Letters, Memory>
        ensures pres { IfOk result (λ letters. letters.pres ≡ pres.now) }
        ensures label { self.new ≡ self.old }
    {
        match self.letters.take() {
            Some(letters) if are_same(letters.pres(), pres) => Ok(letters),
            _ => Letters::new(alloc, pres),
        }
    }
}
