//! The images of the generators above a level.

ghost use Rattle.std.specs.Prelude.{◌≡◌, ◌<◌, ◌≤◌, length, IfOk};
ghost use Rattle.overlap_test.specs.Ways.{image, images};

use hall_table::Memory;
use nil_pres::Presentation;
use nil_word::Vector;
use std::alloc::Global;

/// The images of the generators above a level, in their order.
pub(super) fn images(alloc: Global, pres: &Presentation, i: u32) -> Result<Vec<Vector>, Memory>
    requires least { 1 ≤ i }
    requires most { i ≤ length pres.now.names }
    ensures { IfOk result (λ vectors. vectors.items ≡ images pres.now i) }
{
    let last = pres.count();
    let mut images = Vec::new(alloc);
    for l in i + 1..last + 1 {
        images.push(image(alloc, pres, i, l)?)?;
    }
    Ok(images)
}

/// The image of a generator: itself once, and the right side of its pair with that of the level.
fn image(alloc: Global, pres: &Presentation, i: u32, l: u32) -> Result<Vector, Memory>
    requires least { 1 ≤ i }
    requires below { i < l }
    requires most { l ≤ length pres.now.names }
    ensures { IfOk result (λ vector. vector ≡ image pres.now i l) }
{
    let mut image = Vector::unit(alloc, pres.count(), l)?;
    for syllable in pres.right_side(l, i) {
        image.set(syllable.number, i128::from(syllable.exp));
    }
    Ok(image)
}
