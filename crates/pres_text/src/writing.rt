//! Writes presentation files.

ghost use Rattle.std.specs.Prelude.{◌≡◌, ◌≤◌, ◌<◌, ◌++◌, length, IfOk, OnOk, string_bytes, ◌-◌};
ghost use Rattle.std.specs.List.{All};
ghost use Rattle.nil_pres.specs.Rights.{AreUpTo};
ghost use Rattle.nil_pres.specs.Presented.{right_of};
ghost use Rattle.pres_text.specs.File.{IsFile};
ghost use Rattle.pres_text.specs.Text.{name_of, power_text, right_text, line_text, pairs_text, relations_text, names_text, text_of};

use nil_pres::{Memory, Presentation, Syllable};
use std::alloc::Global;

/// Appends a generator's name.
fn put_name(text: &mut String, pres: &Presentation, k: u32) -> Result<(), Memory>
    requires least { 1 ≤ k }
    requires most { k ≤ length pres.now.names }
    ensures { OnOk result (string_bytes text.new ≡ string_bytes text.old
        ++ name_of pres.now.names k) }
{
    text.push_str(pres.name(k))
}

/// Appends a power.
fn put_power(text: &mut String, pres: &Presentation, syllable: Syllable) -> Result<(), Memory>
    requires least { 1 ≤ syllable.number }
    requires most { syllable.number ≤ length pres.now.names }
    ensures { OnOk result (string_bytes text.new ≡ string_bytes text.old
        ++ power_text pres.now.names syllable) }
{
    put_name(text, pres, syllable.number)?;
    if syllable.exp == 1 {
        return Ok(());
    }
    text.push_str("^")?;
    write!(text, "{}", syllable.exp)
}

/// Appends a right side.
fn put_right(text: &mut String, pres: &Presentation, right: &[Syllable]) -> Result<(), Memory>
    requires least { All (λ s. 1 ≤ s.number) right.now }
    requires most { AreUpTo (length pres.now.names) right.now }
    ensures { OnOk result (string_bytes text.new ≡ string_bytes text.old
        ++ right_text pres.now.names right.now) }
{
    if right.is_empty() {
        return Ok(());
    }
    let (first, rest) = right.split_at(1);
    put_power(text, pres, first[0])?;
    'powers: for syllable in rest {
        text.push_str("*")?;
        put_power(text, pres, *syllable)?;
    }
    Ok(())
}

/// Appends the line of a pair, where its right side isn't empty.
fn put_line(text: &mut String, pres: &Presentation, j: u32, i: u32) -> Result<(), Memory>
    requires least { 1 ≤ i }
    requires below { i < j }
    requires most { j ≤ length pres.now.names }
    ensures { OnOk result (string_bytes text.new ≡ string_bytes text.old
        ++ line_text pres.now.names j i (right_of pres.now i j)) }
{
    let right = pres.right_side(j, i);
    if right.is_empty() {
        return Ok(());
    }
    // Each presentation's count tells that its right sides are lawful.
    let _count = pres.count();
    text.push_str("[")?;
    put_name(text, pres, j)?;
    text.push_str(",")?;
    put_name(text, pres, i)?;
    text.push_str("] = ")?;
    put_right(text, pres, right)?;
    text.push_str("\n")
}

/// Appends the lines of a generator and those below it.
fn put_pairs(text: &mut String, pres: &Presentation, j: u32) -> Result<(), Memory>
    requires least { 1 ≤ j }
    requires most { j ≤ length pres.now.names }
    ensures { OnOk result (string_bytes text.new ≡ string_bytes text.old
        ++ pairs_text pres.now j (j - 1)) }
{
    'pairs: for i in 0..j - 1 {
        put_line(text, pres, j, i + 1)?;
    }
    Ok(())
}

/// Appends the lines of all pairs.
fn put_relations(text: &mut String, pres: &Presentation) -> Result<(), Memory>
    ensures { OnOk result (string_bytes text.new ≡ string_bytes text.old
        ++ relations_text pres.now (length pres.now.names)) }
{
    'generators: for j in 0..pres.count() {
        put_pairs(text, pres, j + 1)?;
    }
    Ok(())
}

/// Appends the names, with a space before each.
fn put_names(text: &mut String, pres: &Presentation) -> Result<(), Memory>
    ensures { OnOk result (string_bytes text.new ≡ string_bytes text.old
        ++ names_text pres.now.names (length pres.now.names)) }
{
    'names: for k in 0..pres.count() {
        text.push_str(" ")?;
        put_name(text, pres, k + 1)?;
    }
    Ok(())
}

/// The canonical text of a presentation.
fn canonical(alloc: Global, pres: &Presentation) -> Result<String, Memory>
    ensures { IfOk result (λ s. string_bytes s ≡ text_of pres.now) }
{
    let mut text = String::new(alloc);
    text.push_str("nilpotent 1\ngenerators")?;
    put_names(&mut text, pres)?;
    text.push_str("\n")?;
    put_relations(&mut text, pres)?;
    Ok(text)
}

/// Writes a presentation as its canonical text.
pub fn write(alloc: Global, pres: &Presentation) -> Result<String, Memory>
    ensures text { IfOk result (λ s. string_bytes s ≡ text_of pres.now) }
    // What is written says what was written.
    ensures again { IfOk result (λ s. IsFile pres.now (string_bytes s)) }
{
    // Each presentation's count tells that it is lawful.
    let _count = pres.count();
    canonical(alloc, pres)
}
