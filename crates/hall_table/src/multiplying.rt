//! Products by a table.

ghost use Rattle.std.specs.Prelude.{◌≡◌, ◌+◌, ◌-◌, ◌≤◌, ℕ, ℤ, pos, negsuc, ◌≤ℤ◌, length, map, cond, OnOk, OnErr, IfOk};
ghost use Rattle.std.proofs.Common.{ltb};
ghost use Rattle.nil_num.specs.Bound.{IsNumber, Overflows};
ghost use Rattle.nil_word.specs.Exponents.{entry, numbers};
ghost use Rattle.binom_poly.specs.Polynomial.{value_of};
ghost use Rattle.binom_poly.specs.Readings.{magnitude_of, value_at, with_value};
ghost use Rattle.binom_poly.specs.Variable.{y_of};
ghost use Rattle.hall_table.specs.Summed.{value_in};

use super::table::{GENERATOR_LIMIT, Table};
use super::wide_at::WideAt;
use binom_poly::{Rows, Wide, y_of};
use nested_poly::Weighed;
use nil_word::Vector;

impl Table {
    ghost use Rattle.nil_num.specs.First.{first_from};
    ghost use Rattle.nil_num.specs.Outcome.{Unless, Writes};
    ghost use Rattle.hall_table.specs.Shape.{IsX};
    ghost use Rattle.hall_table.specs.Tabled.{last_of, poly_at};
    ghost use Rattle.hall_table.specs.Values.{values};
    ghost use Rattle.hall_table.specs.Width.{HasRows, width_for};
    ghost use Rattle.hall_table.specs.Order.{RefusesAt, NamesFound, generators, multiplied, row_overflows, sum_overflows, x_overflows, y_overflows};

    /// Puts the value of `x_k`. The number isn't `i128::MIN`. After a refusal the value is 0.
    pub fn set_x(&self, rows: &mut Rows, k: u32, x: i128) -> Result<(), WideAt>
        requires least { self.now.level ≤ k }
        requires most { k ≤ last_of self.now }
        requires rows { HasRows self.now rows.old }
        requires number { IsNumber x }
        ensures ok { OnOk result (rows.new ≡ with_value rows.old k x) }
        ensures err { OnErr result (rows.new ≡ with_value rows.old k (pos 0)) }
        ensures wide { RefusesAt (WideAt.RowX k) (row_overflows x (width_for self.now k)) result }
        ensures rows { HasRows self.now rows.new }
    {
        match rows.put(k, x) {
            Ok(()) => Ok(()),
            Err(_) => Err(WideAt::RowX(k)),
        }
    }

    /// Puts the value of `y_k`. The number isn't `i128::MIN`. After a refusal the value is 0.
    pub fn set_y(&self, rows: &mut Rows, k: u32, x: i128) -> Result<(), WideAt>
        requires least { self.now.level ≤ k }
        requires most { k ≤ last_of self.now }
        requires rows { HasRows self.now rows.old }
        requires number { IsNumber x }
        ensures ok { OnOk result (rows.new ≡ with_value rows.old (y_of k) x) }
        ensures err { OnErr result (rows.new ≡ with_value rows.old (y_of k) (pos 0)) }
        ensures wide { let overflows = row_overflows x (width_for self.now (y_of k)) in
            RefusesAt (WideAt.RowY k) overflows result }
        ensures rows { HasRows self.now rows.new }
    {
        let _ = self.last();
        match rows.put(y_of(k), x) {
            Ok(()) => Ok(()),
            Err(_) => Err(WideAt::RowY(k)),
        }
    }

    /// The value of a generator's polynomial, by its tree.
    fn nested_value(&self, rows: &Rows, k: u32) -> Result<i128, Wide>
        requires least { self.now.level ≤ k }
        requires most { k ≤ last_of self.now }
        requires rows { HasRows self.now rows.now }
        ensures { Unless (Overflows (magnitude_of (value_at rows.now) (poly_at self.now k)))
            (value_of (value_at rows.now) (poly_at self.now k)) result }
    {
        self.forest.value((k - self.level) as usize, rows)
    }

    /// The value of a generator's polynomial at the values of the rows.
    pub fn entry(&self, rows: &Rows, k: u32) -> Result<i128, WideAt>
        requires least { self.now.level ≤ k }
        requires most { k ≤ last_of self.now }
        requires rows { HasRows self.now rows.now }
        ensures value { IfOk result (λ v. v ≡ value_of (value_at rows.now) (poly_at self.now k)) }
        ensures within { IfOk result IsNumber }
        ensures wide { let overflows = sum_overflows (value_at rows.now) (poly_at self.now k) in
            RefusesAt (WideAt.Sum k) overflows result }
    {
        match self.nested_value(rows, k) {
            Ok(value) => Ok(value),
            Err(_) => Err(WideAt::Sum(k)),
        }
    }

    /// Puts the entries of a vector as the values of all x, or names the first row that overflows.
    pub fn put_x(&self, rows: &mut Rows, a: &Vector) -> Result<(), WideAt>
        requires length { length a.now ≡ last_of self.now }
        requires rows { HasRows self.now rows.old }
        ensures first { let found = first_from self.now.level (generators self.now)
            (x_overflows self.now a.now) in
            NamesFound WideAt.RowX found result }
        ensures put { OnOk result ((k : ℕ) → self.now.level ≤ k → k ≤ last_of self.now
            → value_at rows.new k ≡ entry a.now k) }
        ensures rows { HasRows self.now rows.new }
    {
        for k in self.level()..self.last() + 1 {
            self.set_x(rows, k, a.at(k))?;
        }
        Ok(())
    }

    /// Puts the entries of a vector as the values of all y, or names the first row that overflows.
    fn put_y(&self, rows: &mut Rows, b: &Vector) -> Result<(), WideAt>
        requires length { length b.now ≡ last_of self.now }
        requires rows { HasRows self.now rows.old }
        ensures first { let found = first_from self.now.level (generators self.now)
            (y_overflows self.now b.now) in
            NamesFound WideAt.RowY found result }
        ensures put { OnOk result ((k : ℕ) → self.now.level ≤ k → k ≤ last_of self.now
            → value_at rows.new (y_of k) ≡ entry b.now k) }
        ensures kept { OnOk result ((v : ℕ) → IsX v → value_at rows.new v ≡ value_at rows.old v) }
        ensures rows { HasRows self.now rows.new }
    {
        for k in self.level()..self.last() + 1 {
            self.set_y(rows, k, b.at(k))?;
        }
        Ok(())
    }

    /// Writes the product of two vectors. After a refusal `out` is as before.
    pub fn multiply_into(
        &self,
        rows: &mut Rows,
        a: &Vector,
        b: &Vector,
        out: &mut Vector,
    ) -> Result<(), WideAt>
        requires left { length a.now ≡ last_of self.now }
        requires right { length b.now ≡ last_of self.now }
        requires out { length out.old ≡ last_of self.now }
        requires rows { HasRows self.now rows.old }
        ensures product { Writes result out.new (multiplied self.now a.now b.now) }
        ensures values { OnOk result (out.new ≡ values self.now a.now b.now) }
        ensures err { OnErr result (out.new ≡ out.old) }
        ensures length { length out.new ≡ last_of self.now }
        ensures rows { HasRows self.now rows.new }
    {
        let level = self.level();
        let last = self.last();
        self.put_x(rows, a)?;
        self.put_y(rows, b)?;
        let mut all = [Weighed::NONE; GENERATOR_LIMIT];
        let (sums, _) = all.split_at_mut((last + 1 - level) as usize);
        self.put_sums(rows, sums)?;
        write(sums, level, last, out);
        Ok(())
    }
}

/// Writes the values of sums to a vector, and 0 below the level.
fn write(sums: &[Weighed], level: u32, last: u32, out: &mut Vector)
    requires length { level + length sums.now ≡ last + 1 }
    requires out { length out.old ≡ last }
    requires most { last ≤ GENERATOR_LIMIT }
    requires within { (k : ℕ) → level ≤ k → k ≤ last → IsNumber (value_in level sums.now k) }
    ensures { out.new
        ≡ map (λ k. cond (ltb k level) (pos 0) (value_in level sums.now k)) (numbers 1 last) }
{
    for k in 1..last + 1 {
        out.set(k, sum_at(sums, level, last, k));
    }
}

/// The value of the sum of a generator, and 0 below the level.
fn sum_at(sums: &[Weighed], level: u32, last: u32, k: u32) -> i128
    requires length { level + length sums.now ≡ last + 1 }
    requires last { k ≤ last }
    requires within { (k : ℕ) → level ≤ k → k ≤ last → IsNumber (value_in level sums.now k) }
    ensures value { result ≡ cond (ltb k level) (pos 0) (value_in level sums.now k) }
    ensures number { IsNumber result }
{
    if k < level {
        return 0;
    }
    sums[(k - level) as usize].value
}
