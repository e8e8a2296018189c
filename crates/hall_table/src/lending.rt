//! Polynomials of a table that are read where they stand.

ghost use Rattle.std.specs.Prelude.{◌≡◌, ◌≤◌};

use super::table::Table;
use binom_poly::Poly;

impl Table {
    ghost use Rattle.hall_table.specs.Tabled.{last_of, poly_at};

    /// The polynomial of a generator, lent.
    pub fn lend(&self, k: u32) -> &Poly
        requires least { self.now.level ≤ k }
        requires most { k ≤ last_of self.now }
        ensures { result.now ≡ poly_at self.now k }
    {
        &self.polys[(k - self.level) as usize]
    }
    /// All polynomials, from the level on, lent.
    pub fn lend_all(&self) -> &[Poly]
        ensures { result.now ≡ self.now.polys }
    {
        &self.polys
    }
}
