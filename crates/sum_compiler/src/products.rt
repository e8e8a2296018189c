//! The product of the images to the powers x.

ghost use Rattle.std.specs.Prelude.{◌≡◌, ◌+◌, ◌≤◌, length, map, All, IfOk};
ghost use Rattle.nil_num.specs.Outcome.{Gives};
ghost use Rattle.nil_word.specs.Exponents.{numbers};
ghost use Rattle.hall_table.specs.Order.{generators};
ghost use Rattle.sum_compiler.specs.Calls.{MakesIn, place_of};
ghost use Rattle.sum_compiler.specs.Powers.{powers};
ghost use Rattle.sum_compiler.specs.Images.{families};
ghost use Rattle.sum_compiler.specs.Products.{at_y, base_of, product, all_at_y_calls, product_plan};

use crate::Memory;
use crate::assigning::to_power;
use crate::joining::times;
use crate::putting::put_in_each;
use crate::sum_fault::SumFault;
use crate::sum_step::SumStep;
use binom_poly::{Poly, var, x_of, y_of};
use hall_table::Table;
use poly_subst::Substitution;
use std::alloc::Global;

/// What puts `y_i` in place of t.
fn at_y(alloc: Global, table: &Table, i: u32) -> Result<Substitution, Memory>
    requires least { 1 ≤ i }
    requires most { i ≤ 48 }
    ensures { IfOk result (λ s. s ≡ at_y table.now i) }
{
    let y = var(alloc, y_of(i))?;
    let list = to_power(alloc, table.level(), Vec::new(alloc), y)?;
    Substitution::new(alloc, list)
}

/// For each image, with `y_i` in place of t, what puts it in place of z, and `x_j` in place of t.
fn bases(
    alloc: Global,
    table: &Table,
    images: &[Vec<Poly>],
    i: u32,
) -> Result<Vec<Substitution>, SumFault>
    requires level { table.now.level ≡ i + 1 }
    requires least { 1 ≤ i }
    requires count { length images.now ≡ generators table.now }
    requires size { All (λ image. length image.items ≡ generators table.now) images.now }
    ensures bases { IfOk result (λ bases. bases.items
        ≡ map (base_of (families images.now) table.now i)
        (numbers table.now.level (generators table.now))) }
    ensures makes { Gives place_of result (MakesIn (all_at_y_calls (families images.now) table.now i
        (numbers table.now.level (generators table.now)))) }
{
    let level = table.level();
    let last = table.last();
    let mut at_y = at_y(alloc, table, i)?;
    let mut bases = Vec::new(alloc);
    for j in level..last + 1 {
        let image = &images[(last - j) as usize];
        let vector = put_in_each(alloc, SumStep::Product, j, level, image, &mut at_y)?;
        let exponent = var(alloc, x_of(j))?;
        let base = to_power(alloc, level, vector, exponent)?;
        bases.push(Substitution::new(alloc, base)?)?;
    }
    Ok(bases)
}

/// The product of all images to the powers x.
pub fn product(
    alloc: Global,
    table: &Table,
    power_polys: &[Poly],
    images: &[Vec<Poly>],
    i: u32,
) -> Result<Vec<Poly>, SumFault>
    requires level { table.now.level ≡ i + 1 }
    requires least { 1 ≤ i }
    requires powers { power_polys.now ≡ powers table.now }
    requires count { length images.now ≡ generators table.now }
    requires size { All (λ image. length image.items ≡ generators table.now) images.now }
    ensures product { IfOk result (λ polys. polys.items
        ≡ product (families images.now) table.now i) }
    ensures makes { Gives place_of result
        (MakesIn (product_plan (families images.now) table.now i)) }
{
    let level = table.level();
    let mut bases = bases(alloc, table, images, i)?;
    let mut product = put_in_each(
        alloc,
        SumStep::Product,
        level,
        level,
        power_polys,
        &mut bases[0],
    )?;
    for j in level + 1..table.last() + 1 {
        let base = &mut bases[(j - level) as usize];
        let factor = put_in_each(alloc, SumStep::Product, j, level, power_polys, base)?;
        product = times(alloc, SumStep::Product, j, table, product, factor)?;
    }
    Ok(product)
}
