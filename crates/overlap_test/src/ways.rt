//! The two ways of an overlap.

ghost use Rattle.std.specs.Prelude.{◌≡◌, ◌+◌, ◌<◌, ◌≤◌, length, IfOk};
ghost use Rattle.nil_num.specs.Outcome.{Writes};
ghost use Rattle.hall_table.specs.Multiplies.{IsChecked};
ghost use Rattle.overlap_test.specs.Room.{IsRoomOf, WritesWays};
ghost use Rattle.overlap_test.specs.Verdict.{overlap_of};
ghost use Rattle.overlap_test.specs.Ways.{first_written, power_joined, second_written};

use super::images::images;
use super::overlap::Overlap;
use group_eval::{Workspace, multiply, power};
use hall_table::{Checked, Memory, WideAt};
use nil_pres::Syllable;
use nil_word::Vector;
use std::alloc::Global;
use std::mem::swap;

/// The vectors of the two ways of an overlap, and what they are made with.
#[derive(Drop)]
pub(super) struct Ways {
    ws: Workspace,
    images: Vec<Vector>,
    pub(super) first: Vector,
    pub(super) second: Vector,
    power: Vector,
    product: Vector,
}

impl Ways {
    /// Room for the overlaps of the level below a table.
    pub(super) fn reserve(alloc: Global, above: &Checked, i: u32) -> Result<Ways, Memory>
        requires least { 1 ≤ i }
        requires most { i ≤ length above.now.pres.names }
        ensures { IfOk result (λ ways. IsRoomOf ways above.now i) }
    {
        let n = above.pres().count();
        Ok(Ways {
            ws: Workspace::reserve(alloc, above)?,
            images: images(alloc, above.pres(), i)?,
            first: Vector::zero(alloc, n)?,
            second: Vector::zero(alloc, n)?,
            power: Vector::zero(alloc, n)?,
            product: Vector::zero(alloc, n)?,
        })
    }

    /// Writes both ways. The first is evaluated whole before the second.
    pub(super) fn write(&mut self, above: &Checked, i: u32, j: u32, k: u32) -> Result<(), WideAt>
        requires least { 1 ≤ i }
        requires below { i < j }
        requires above { j < k }
        requires most { k ≤ length above.now.pres.names }
        requires room { IsRoomOf self.old above.now i }
        ensures ways { WritesWays result self.new above.now i j k }
        ensures room { IsRoomOf self.new above.now i }
    {
        self.write_first(above, i, j, k)?;
        self.write_second(above, i, j, k)
    }

    /// Writes the first way: the product of the two images, and then by each syllable the power of
    /// an image.
    fn write_first(&mut self, above: &Checked, i: u32, j: u32, k: u32) -> Result<(), WideAt>
        requires least { 1 ≤ i }
        requires below { i < j }
        requires above { j < k }
        requires most { k ≤ length above.now.pres.names }
        requires room { IsRoomOf self.old above.now i }
        ensures order { Writes result self.new.first (first_written above.now i j k) }
        ensures room { IsRoomOf self.new above.now i }
    {
        let left = &self.images[(j - i - 1) as usize];
        let right = &self.images[(k - i - 1) as usize];
        multiply(&mut self.ws, above, left, right, &mut self.first)?;
        for syllable in above.pres().right_side(k, j) {
            self.join_power(above, i, *syllable)?;
        }
        Ok(())
    }

    /// Multiplies the first way by the power of an image.
    fn join_power(&mut self, above: &Checked, i: u32, syllable: Syllable) -> Result<(), WideAt>
        requires least { 1 ≤ i }
        requires below { i < syllable.number }
        requires most { syllable.number ≤ length above.now.pres.names }
        requires room { IsRoomOf self.old above.now i }
        ensures order { Writes result self.new.first
            (power_joined above.now i self.old.first syllable) }
        ensures second { self.new.second ≡ self.old.second }
        ensures room { IsRoomOf self.new above.now i }
    {
        let image = &self.images[(syllable.number - i - 1) as usize];
        let e = i128::from(syllable.exp);
        power(&mut self.ws, above, image, e, &mut self.power)?;
        multiply(
            &mut self.ws,
            above,
            &self.first,
            &self.power,
            &mut self.product,
        )?;
        swap(&mut self.first, &mut self.product);
        Ok(())
    }

    /// Writes the second way: the product of the two images, the greater generator's on the left.
    fn write_second(&mut self, above: &Checked, i: u32, j: u32, k: u32) -> Result<(), WideAt>
        requires below { i < j }
        requires above { j < k }
        requires most { k ≤ length above.now.pres.names }
        requires room { IsRoomOf self.old above.now i }
        ensures order { Writes result self.new.second (second_written above.now i j k) }
        ensures first { self.new.first ≡ self.old.first }
        ensures room { IsRoomOf self.new above.now i }
    {
        let left = &self.images[(k - i - 1) as usize];
        let right = &self.images[(j - i - 1) as usize];
        multiply(&mut self.ws, above, left, right, &mut self.second)
    }

    /// The overlap of the two ways, as they stand.
    pub(super) fn overlap(&self, alloc: Global, i: u32, j: u32, k: u32) -> Result<Overlap, Memory>
        requires least { 1 ≤ i }
        requires first { i ≤ length self.now.first }
        requires second { i ≤ length self.now.second }
        ensures { IfOk result (λ o. o ≡ overlap_of i j k self.now.first self.now.second) }
    {
        let mut left = self.first.copy(alloc)?;
        let mut right = self.second.copy(alloc)?;
        left.set(i, 1);
        right.set(i, 1);
        Ok(Overlap {
            i,
            j,
            k,
            left,
            right,
        })
    }
}
