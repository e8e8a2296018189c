//! The images of the generators under the powers of the new one.

ghost use Rattle.std.specs.Prelude.{◌≡◌, ℕ, ℤ, suc, ◌+◌, ◌-◌, ◌<◌, ◌≤◌, ◌++◌, ◌∷◌, ◌+ℤ◌, [], length, map, pos, replicate, All, IfOk, OnOk};
ghost use Rattle.nil_num.specs.Outcome.{Gives};
ghost use Rattle.nil_word.specs.Factors.{Factor};
ghost use Rattle.nil_pres.specs.Relations.{relations_of, between};
ghost use Rattle.binom_poly.specs.Collected.{constant_terms};
ghost use Rattle.hall_table.specs.Order.{generators};
ghost use Rattle.hall_table.specs.Tabled.{last_of};
ghost use Rattle.hall_table.specs.Values.{values};
ghost use Rattle.hall_table.specs.Agreement.{IsPowerOf, HaveEqualWays};
ghost use Rattle.hall_law.specs.Plan.{Powers, AreImages, phi};
ghost use Rattle.hall_law.specs.Agreement.{PhiJoins, PhiTakesOnce};
ghost use Rattle.sum_compiler.specs.Calls.{StopsIn, MakesIn, place_of};
ghost use Rattle.sum_compiler.specs.Plan.{image_plan_from};
ghost use Rattle.sum_compiler.specs.Readings.{images_at};
ghost use Rattle.sum_compiler.specs.Joining.{power_of, power_calls};
ghost use Rattle.sum_compiler.specs.Powers.{powers};
ghost use Rattle.sum_compiler.specs.Images.{families, right_power, right_of, right_calls, first_of, next_generator, next_image, next_image_calls, images, image_plan};

use crate::Memory;
use crate::joining::{power, times};
use crate::powers::powers;
use crate::sum_fault::SumFault;
use crate::sum_step::SumStep;
use crate::summing::with_sums;
use binom_poly::{Poly, constant, copy, zero};
use hall_law::laws::agreement;
use hall_table::presentations::relations;
use hall_table::{Checked, Table};
use nil_pres::{Presentation, Syllable};
use std::alloc::Global;

/// Equal polynomials.
fn copies(alloc: Global, polys: &[Poly]) -> Result<Vec<Poly>, Memory>
    ensures { IfOk result (λ copied. copied.items ≡ polys.now) }
{
    let mut copied = Vec::new(alloc);
    for poly in polys {
        copied.push(copy(alloc, poly)?)?;
    }
    Ok(copied)
}

/// Polynomials that are 0.
fn zeros(alloc: Global, count: u32) -> Result<Vec<Poly>, Memory>
    ensures { IfOk result (λ polys. polys.items ≡ replicate count []) }
{
    let mut polys = Vec::new(alloc);
    for _ in 0..count {
        polys.push(zero(alloc))?;
    }
    Ok(polys)
}

/// The entries of the image of a generator up to its own: 0 below it, and 1.
fn first_entries(alloc: Global, table: &Table, j: u32) -> Result<Vec<Poly>, Memory>
    requires least { table.now.level ≤ j }
    ensures { IfOk result (λ polys. polys.items ≡ first_of table.now j) }
{
    let mut polys = zeros(alloc, j - table.level())?;
    polys.push(constant(alloc, 1)?)?;
    Ok(polys)
}

/// The power of an image that stands for a syllable.
fn right_power(
    alloc: Global,
    table: &Table,
    power_polys: &[Poly],
    images: &[Vec<Poly>],
    j: u32,
    syllable: Syllable,
) -> Result<Vec<Poly>, SumFault>
    requires powers { power_polys.now ≡ powers table.now }
    requires most { syllable.number ≤ last_of table.now }
    requires made { last_of table.now < syllable.number + length images.now }
    requires size { All (λ image. length image.items ≡ generators table.now) images.now }
    ensures power { IfOk result (λ polys. polys.items ≡ power_of table.now (powers table.now)
        (right_power (families images.now) table.now j
        record { number = syllable.number; exp = syllable.exp })) }
    ensures makes { Gives place_of result (MakesIn (power_calls SumStep.Image table.now
        (powers table.now) (right_power (families images.now) table.now j
        record { number = syllable.number; exp = syllable.exp }))) }
{
    let place = (table.last() - syllable.number) as usize;
    let vector = copies(alloc, &images[place])?;
    let exponent = constant(alloc, syllable.exp as i128)?;
    power(
        alloc,
        SumStep::Image,
        j,
        table,
        power_polys,
        vector,
        exponent,
    )
}

/// The product of the powers that stand for the right side of a pair; 0 where it is empty.
fn right(
    alloc: Global,
    pres: &Presentation,
    table: &Table,
    power_polys: &[Poly],
    images: &[Vec<Poly>],
    i: u32,
    j: u32,
) -> Result<Vec<Poly>, SumFault>
    requires names { last_of table.now ≡ length pres.now.names }
    requires level { table.now.level ≡ i + 1 }
    requires least { 1 ≤ i }
    requires above { i < j }
    requires most { j ≤ last_of table.now }
    requires powers { power_polys.now ≡ powers table.now }
    requires made { j + length images.now ≡ last_of table.now }
    requires size { All (λ image. length image.items ≡ generators table.now) images.now }
    ensures right { IfOk result (λ polys. polys.items
        ≡ right_of (families images.now) table.now j (between pres.now i j)) }
    ensures makes { Gives place_of result (MakesIn
        (right_calls (families images.now) table.now j (between pres.now i j))) }
{
    let Some((first, rest)) = pres.right_side(j, i).split_first() else {
        return Ok(zeros(alloc, table.last() + 1 - table.level())?);
    };
    let mut product = right_power(alloc, table, power_polys, images, j, *first)?;
    for syllable in rest {
        let factor = right_power(alloc, table, power_polys, images, j, *syllable)?;
        product = times(alloc, SumStep::Image, j, table, product, factor)?;
    }
    Ok(product)
}

/// The image of the next generator.
fn next_image(
    alloc: Global,
    pres: &Presentation,
    table: &Table,
    power_polys: &[Poly],
    images: &[Vec<Poly>],
    i: u32,
    j: u32,
) -> Result<Vec<Poly>, SumFault>
    requires names { last_of table.now ≡ length pres.now.names }
    requires level { table.now.level ≡ i + 1 }
    requires least { 1 ≤ i }
    requires above { i < j }
    requires most { j ≤ last_of table.now }
    requires powers { power_polys.now ≡ powers table.now }
    requires made { j + length images.now ≡ last_of table.now }
    requires size { All (λ image. length image.items ≡ generators table.now) images.now }
    ensures image { IfOk result (λ polys. polys.items
        ≡ next_image table.now (between pres.now i) (families images.now)) }
    ensures makes { Gives place_of result (MakesIn
        (next_image_calls table.now (between pres.now i) (families images.now))) }
{
    let steps = right(alloc, pres, table, power_polys, images, i, j)?;
    let first = first_entries(alloc, table, j)?;
    with_sums(alloc, table, SumStep::Image, j, first, steps)
}

/// The images of all generators, that of the last one first.
pub fn images(
    alloc: Global,
    pres: &Presentation,
    table: &Table,
    power_polys: &[Poly],
    i: u32,
) -> Result<Vec<Vec<Poly>>, SumFault>
    requires names { last_of table.now ≡ length pres.now.names }
    requires level { table.now.level ≡ i + 1 }
    requires least { 1 ≤ i }
    requires powers { power_polys.now ≡ powers table.now }
    ensures images { IfOk result (λ made. families made.items
        ≡ images table.now (between pres.now i) (generators table.now)) }
    ensures makes { Gives place_of result (MakesIn (image_plan table.now (between pres.now i))) }
{
    let last = table.last();
    let mut images: Vec<Vec<Poly>> = Vec::new(alloc);
    for made in 0..last + 1 - table.level() {
        let image = next_image(alloc, pres, table, power_polys, &images, i, last - made)?;
        images.push(image)?;
    }
    Ok(images)
}

/// What the powers of the generator `a_i` of a new level make of each generator above, as
/// polynomials in the exponent t: entry by entry from the level above on.
pub fn conjugate_powers(
    alloc: Global,
    pres: &Presentation,
    above: &Checked,
    i: u32,
) -> Result<Vec<Vec<Poly>>, SumFault>
    requires pres { above.now.pres ≡ pres.now }
    requires level { above.now.table.level ≡ i + 1 }
    requires least { 1 ≤ i }
    requires agree { HaveEqualWays above.now i }
    // They are images whatever the values of the other variables, and for every integer t.
    ensures images { IfOk result (λ images. (Q : Powers) → IsPowerOf above.now Q → (b : ℕ → ℤ)
        → AreImages (relations_of pres.now) (between pres.now) i (values above.now.table) Q
        (images_at above.now.table b (families images.items))) }
    // A_j(t + 1) is what the generator makes of A_j(t).
    ensures moves { IfOk result (λ images. (Q : Powers) → IsPowerOf above.now Q → (b : ℕ → ℤ)
        → (j : ℕ) (t : ℤ) → i < j → j ≤ length pres.now.names
        → images_at above.now.table b (families images.items) j (t +ℤ pos 1)
        ≡ phi (relations_of pres.now) i (values above.now.table) Q
        (images_at above.now.table b (families images.items) j t)) }
    // It takes products to products, and exactly one vector to each.
    ensures joins { OnOk result ((Q : Powers) → IsPowerOf above.now Q
        → PhiJoins (relations_of pres.now) (between pres.now) i (values above.now.table) Q) }
    ensures takes_once { OnOk result ((Q : Powers) → IsPowerOf above.now Q
        → PhiTakesOnce (relations_of pres.now) (between pres.now) i (values above.now.table) Q) }
    ensures stops { Gives place_of result (StopsIn
        (image_plan_from above.now.table (between pres.now i))) }
{
    let table = above.table();
    let _ = (table.level(), pres.count());
    let power_polys = powers(alloc, table)?;
    let mut images = images(alloc, pres, table, &power_polys, i)?;
    images.reverse();
    agreement();
    relations();
    Ok(images)
}
