//! Proposers of tables.

ghost use Rattle.std.specs.Prelude.{◌≡◌, ℕ, ◌≤◌, length, IfOk};
ghost use Rattle.std.specs.declared.option.Option.{Option};
ghost use Rattle.nil_pres.specs.Presented.{Presented};
ghost use Rattle.hall_table.specs.Tabled.{Tabled};

use hall_table::{Memory, Table};
use nil_pres::Presentation;
use std::alloc::Global;

/// Proposes tables. It isn't trusted: a table of it may be false, or of another level. What it keeps
/// between calls is its own affair.
pub trait Proposer: Drop {
    /// The table for a presentation and a level, where there is one.
    ghost gives: { Self → Presented → ℕ → Option Tabled };

    /// The number by which it is named.
    ghost named: { Self → ℕ };

    /// The table for a presentation and a level, where there is one.
    fn propose(
        &mut self,
        alloc: Global,
        pres: &Presentation,
        level: u32,
    ) -> Result<Option<Table>, Memory>
        requires least { 1 ≤ level }
        requires most { level ≤ length pres.now.names }
        ensures given { IfOk result (λ table. table ≡ gives self.old pres.now level) }
        ensures same { (p : Presented) (l : ℕ) → gives self.new p l ≡ gives self.old p l }
        ensures same_label { named self.new ≡ named self.old };

    /// The number by which it is named.
    fn label(&self) -> u32
        ensures { result ≡ named self.now };
}
