//! Which generators a table is walked over: the others are drawn from them by right sides.

ghost use Rattle.std.specs.Prelude.{◌≡◌, ◌<◌, ◌≤◌, ◌≢◌, length, All, IfOk, IfSome, IsTrue};
ghost use Rattle.nil_pres.specs.Presented.{right_of};
ghost use Rattle.nil_pres.specs.Relations.{relations_of};
ghost use Rattle.identity_check.specs.Drawing.{AreEnough, AreGenerators, IsLeft, IsMarked, KeepDrawn};

use crate::Memory;
use crate::pairs::exponent_in;
use hall_table::GENERATOR_LIMIT;
use nil_pres::{Presentation, Syllable};
use std::alloc::Global;

/// A mark for each generator, at its number.
const MARKS: usize = GENERATOR_LIMIT + 1;

/// The first generator of a right side that isn't marked.
fn first_unmarked(right: &[Syllable], marks: &[bool]) -> Option<u32>
    requires marks { length marks.now ≡ MARKS }
    requires right { All (λ s. s.number < MARKS) right.now }
    ensures { IfSome result (λ m. m < MARKS) }
{
    for syllable in right {
        if !marks[syllable.number as usize] {
            return Some(syllable.number);
        }
    }
    None
}

/// Whether a generator is marked or is this one.
fn is_marked_but(marks: &[bool], k: u32, m: u32) -> bool
    requires marks { length marks.now ≡ MARKS }
    requires small { k < MARKS }
    ensures { IsTrue result → k ≢ m → IsMarked marks.now k }
{
    k == m || marks[k as usize]
}

/// Whether all generators of a right side but one are marked.
fn are_others_marked(right: &[Syllable], marks: &[bool], m: u32) -> bool
    requires marks { length marks.now ≡ MARKS }
    requires right { All (λ s. s.number < MARKS) right.now }
    ensures { IsTrue result → All (λ s. s.number ≢ m → IsMarked marks.now s.number) right.now }
{
    for syllable in right {
        if !is_marked_but(marks, syllable.number, m) {
            return false;
        }
    }
    true
}

/// The generator of a right side that is left over: it is there once, and all others are marked.
fn left_over(right: &[Syllable], marks: &[bool]) -> Option<u32>
    requires marks { length marks.now ≡ MARKS }
    requires right { All (λ s. s.number < MARKS) right.now }
    ensures left { IfSome result (λ m. IsLeft right.now marks.now m) }
    ensures small { IfSome result (λ m. m < MARKS) }
{
    let Some(m) = first_unmarked(right, marks) else {
        return None;
    };
    let exponent = exponent_in(right, m);
    let once = exponent == 1 || exponent == -1;
    if once && are_others_marked(right, marks, m) {
        Some(m)
    } else {
        None
    }
}

/// Marks what a pair draws, if both of it are marked; says whether that was anything.
fn draw_pair(pres: &Presentation, level: u32, marks: &mut [bool], j: u32, l: u32) -> bool
    requires least { 1 ≤ level }
    requires first { level ≤ j }
    requires below { j < l }
    requires last { l ≤ length pres.now.names }
    requires marks { length marks.old ≡ MARKS }
    ensures { KeepDrawn (relations_of pres.now) level marks.old marks.new }
{
    let _ = pres.count();
    if !marks[j as usize] || !marks[l as usize] {
        return false;
    }
    let Some(m) = left_over(pres.right_side(l, j), marks) else {
        return false;
    };
    marks[m as usize] = true;
    true
}

/// Marks what the pairs of a generator and a lower one draw.
fn draw_below(pres: &Presentation, level: u32, marks: &mut [bool], l: u32) -> bool
    requires least { 1 ≤ level }
    requires last { l ≤ length pres.now.names }
    requires marks { length marks.old ≡ MARKS }
    ensures { KeepDrawn (relations_of pres.now) level marks.old marks.new }
{
    let mut any = false;
    for j in level..l {
        any |= draw_pair(pres, level, marks, j, l);
    }
    any
}

/// Marks what all pairs draw.
fn draw(pres: &Presentation, level: u32, marks: &mut [bool]) -> bool
    requires least { 1 ≤ level }
    requires marks { length marks.old ≡ MARKS }
    ensures { KeepDrawn (relations_of pres.now) level marks.old marks.new }
{
    let mut any = false;
    for l in level..pres.count() + 1 {
        any |= draw_below(pres, level, marks, l);
    }
    any
}

/// Marks until no pair draws any more.
fn draw_all(pres: &Presentation, level: u32, marks: &mut [bool])
    requires least { 1 ≤ level }
    requires marks { length marks.old ≡ MARKS }
    ensures { KeepDrawn (relations_of pres.now) level marks.old marks.new }
{
    // Each round but the last marks one.
    for _ in level..pres.count() + 1 {
        if !draw(pres, level, marks) {
            return;
        }
    }
}

/// The known generators, and from the level on each that isn't drawn from those before it.
pub fn walked(
    alloc: Global,
    pres: &Presentation,
    level: u32,
    known: &[u32],
) -> Result<Vec<u32>, Memory>
    requires least { 1 ≤ level }
    requires known { AreGenerators level (length pres.now.names) known.now }
    ensures enough { IfOk result (λ ms. AreEnough (relations_of pres.now) level ms.items) }
    ensures generators { IfOk result (λ ms. AreGenerators level (length pres.now.names) ms.items) }
{
    let end = pres.count() + 1;
    let mut marks = [false; MARKS];
    let mut walked = Vec::new(alloc);
    for m in known {
        walked.push(*m)?;
        marks[*m as usize] = true;
    }
    draw_all(pres, level, &mut marks);
    for k in level..end {
        if !marks[k as usize] {
            walked.push(k)?;
            marks[k as usize] = true;
            draw_all(pres, level, &mut marks);
        }
    }
    Ok(walked)
}
