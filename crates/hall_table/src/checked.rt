//! Tables that multiply in a presentation.

ghost use Rattle.std.specs.Prelude.{◌≡◌, length};
ghost use Rattle.hall_law.specs.Table.{IsTable};
ghost use Rattle.nil_pres.specs.Presented.{IsPresented};
ghost use Rattle.nil_pres.specs.Relations.{relations_of};
ghost use Rattle.hall_table.specs.Tabled.{IsTabled, last_of};
ghost use Rattle.hall_table.specs.Values.{values};

use super::table::Table;
use nil_pres::Presentation;
use std::marker::Model;

/// A presentation with a multiplication table of one of its levels.
#[derive(Drop)]
pub struct Checked {
    pres: Presentation,
    table: Table,
}

impl Model for Checked {
    ghost use Rattle.hall_table.specs.Multiplies.{Paired, IsChecked};

    ghost Value = { Paired };

    ghost view = { λ c. record { pres = c.pres; table = c.table } };

    ghost invariant = { λ c. IsChecked record { pres = c.pres; table = c.table } };
}

impl Checked {
    ghost use Rattle.hall_table.specs.Multiplies.{IsChecked};

    /// The pair of a presentation and a table that multiplies in it.
    pub fn new(pres: Presentation, table: Table) -> Checked
        requires last { last_of table ≡ length pres.names }
        requires multiplies { IsTable (relations_of pres) table.level (values table) }
        ensures { result ≡ record { pres = pres; table = table } }
    {
        Checked { pres, table }
    }

    /// The table.
    pub fn table(&self) -> &Table
        ensures table { result.now ≡ self.now.table }
        ensures multiplies { IsChecked self.now }
    {
        &self.table
    }

    /// The presentation.
    pub fn pres(&self) -> &Presentation
        ensures pres { result.now ≡ self.now.pres }
        ensures multiplies { IsChecked self.now }
    {
        &self.pres
    }
}
