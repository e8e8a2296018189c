//! The sums of a table's polynomials.

ghost use Rattle.std.specs.Prelude.{◌≡◌, ◌+◌, ◌<◌, ◌≤◌, ℕ, length, OnOk};
ghost use Rattle.nil_num.specs.Bound.{Fits, IsNumber, overflows};
ghost use Rattle.nil_num.specs.First.{first_from};
ghost use Rattle.binom_poly.specs.Polynomial.{value_of};
ghost use Rattle.binom_poly.specs.Readings.{value_at};
ghost use Rattle.nested_poly.specs.Counts.{weighed_at};
ghost use Rattle.hall_table.specs.Order.{NamesFound};
ghost use Rattle.hall_table.specs.Summed.{sum_in};

use super::table::{GENERATOR_LIMIT, Table};
use super::wide_at::WideAt;
use binom_poly::Rows;
use nested_poly::Weighed;

impl Table {
    ghost use Rattle.hall_table.specs.Tabled.{last_of, poly_at};
    ghost use Rattle.hall_table.specs.Width.{HasRows};
    ghost use Rattle.hall_table.specs.Order.{generators, sum_overflows};
    ghost use Rattle.hall_table.specs.Summed.{value_in, AreSummed};

    /// Writes the sums of all polynomials.
    fn sum_up(&self, rows: &Rows, sums: &mut [Weighed])
        requires length { length sums.old ≡ generators self.now }
        requires rows { HasRows self.now rows.now }
        ensures length { length sums.new ≡ generators self.now }
        ensures sums { AreSummed self.now (value_at rows.now) sums.new }
    {
        self.forest.sums(rows, sums);
    }

    /// Writes the sums of all polynomials, or names the first that overflows.
    pub(super) fn put_sums(&self, rows: &Rows, sums: &mut [Weighed]) -> Result<(), WideAt>
        requires length { length sums.old ≡ generators self.now }
        requires rows { HasRows self.now rows.now }
        ensures first { let found = first_from self.now.level (generators self.now)
            (λ k. sum_overflows (value_at rows.now) (poly_at self.now k)) in
            NamesFound WideAt.Sum found result }
        ensures length { length sums.new ≡ generators self.now }
        ensures sums { OnOk result ((k : ℕ) → self.now.level ≤ k → k ≤ last_of self.now
            → (value_in self.now.level sums.new k
            ≡ value_of (value_at rows.now) (poly_at self.now k))
            × IsNumber (value_in self.now.level sums.new k)) }
    {
        let _ = self.last();
        self.sum_up(rows, sums);
        first_fits(self.level(), sums)
    }
}

/// Names the first sum that overflows.
fn first_fits(level: u32, sums: &[Weighed]) -> Result<(), WideAt>
    requires { level + length sums.now ≤ GENERATOR_LIMIT + 1 }
    ensures first { let found = first_from level (length sums.now)
        (λ k. overflows (sum_in level sums.now k).magnitude) in
        NamesFound WideAt.Sum found result }
    ensures fits { OnOk result ((k : ℕ) → k < length sums.now
        → Fits (weighed_at sums.now k).magnitude) }
{
    for place in 0..sums.len() {
        if sums[place].overflows() {
            return Err(WideAt::Sum(level + place as u32));
        }
    }
    Ok(())
}
