//! Letters, and the words that they leave behind, are appended within a budget of letters. Nothing
//! here takes memory, and no word is written out: its syllables are gone over as often as they are
//! to be taken.

ghost use Rattle.std.specs.Prelude.{◌≡◌, ℕ, ◌+◌, ◌<◌, ◌≤◌, [], ◌∷◌, length, Some, None, OnOk, OnErr};
ghost use Rattle.nil_word.specs.Words.{up};
ghost use Rattle.nil_word.specs.Expressions.{raised};
ghost use Rattle.nil_pres.specs.Presented.{right_of};
ghost use Rattle.nil_pres.specs.Relations.{relations_of};
ghost use Rattle.left_collect.specs.Conjugates.{image, conjugated};
ghost use Rattle.left_collect.specs.Collected.{behind, cut, collected};
ghost use Rattle.left_collect.specs.Pieces.{piece, pieces, turned, IsReady};

use super::entries::{clear_behind, count_letter, entries_of, is_free};
use super::spent::Spent;
use nil_pres::Presentation;
use nil_word::{Letter, Vector};

/// Appends a letter.
#[cycle(rewriting)]
pub(crate) fn append_letter(
    pres: &Presentation,
    v: &mut Vector,
    left: &mut u64,
    letter: Letter,
) -> Result<(), Spent>
    requires ready { IsReady pres.now v.old left.old }
    requires least { 1 ≤ letter.number }
    requires most { letter.number ≤ length pres.now.names }
    ensures ready { OnOk result (IsReady pres.now v.new left.new) }
    ensures ok { OnOk result (collected (relations_of pres.now) left.old v.old (letter ∷ [])
        ≡ Some (v.new, left.new)) }
    ensures spent { OnErr result (collected (relations_of pres.now) left.old v.old (letter ∷ [])
        ≡ None) }
{
    if *left == 0 {
        return Err(Spent);
    }
    *left -= 1;
    if is_free(pres, v, letter.number) {
        count_letter(v, letter);
        return Ok(());
    }
    go_past(pres, v, left, letter)
}

/// Moves a letter, which the budget has paid, to the left of what is behind its generator, and
/// appends what that becomes.
#[cycle(rewriting)]
fn go_past(pres: &Presentation, v: &mut Vector, left: &mut u64, letter: Letter) -> Result<(), Spent>
    requires ready { IsReady pres.now v.old (left.old + 1) }
    requires least { 1 ≤ letter.number }
    requires most { letter.number ≤ length pres.now.names }
    ensures ready { OnOk result (IsReady pres.now v.new left.new) }
    ensures ok { let rels = relations_of pres.now in
        let word = image (conjugated rels letter) (behind v.old letter.number) in
        OnOk result (collected rels left.old (cut v.old letter) word ≡ Some (v.new, left.new)) }
    ensures spent { let rels = relations_of pres.now in
        let word = image (conjugated rels letter) (behind v.old letter.number) in
        OnErr result (collected rels left.old (cut v.old letter) word ≡ None) }
{
    let count = pres.count();
    let saved = entries_of(v);
    count_letter(v, letter);
    clear_behind(v, letter.number);
    for k in letter.number + 1..count + 1 {
        append_conjugates(pres, v, left, letter, k, saved[k as usize - 1])?;
    }
    Ok(())
}

/// Appends what a generator to a power becomes where a letter goes past it.
#[cycle(rewriting)]
fn append_conjugates(
    pres: &Presentation,
    v: &mut Vector,
    left: &mut u64,
    past: Letter,
    generator: u32,
    exponent: i128,
) -> Result<(), Spent>
    requires ready { IsReady pres.now v.old left.old }
    requires least { 1 ≤ past.number }
    requires below { past.number < generator }
    requires most { generator ≤ length pres.now.names }
    ensures ready { OnOk result (IsReady pres.now v.new left.new) }
    ensures ok { let rels = relations_of pres.now in
        let word = raised (conjugated rels past generator) exponent in
        OnOk result (collected rels left.old v.old word ≡ Some (v.new, left.new)) }
    ensures spent { let rels = relations_of pres.now in
        let word = raised (conjugated rels past generator) exponent in
        OnErr result (collected rels left.old v.old word ≡ None) }
{
    'taking: for _i in 0..exponent.unsigned_abs() {
        append_conjugate(pres, v, left, past, generator, exponent > 0)?;
    }
    Ok(())
}

/// Appends what a generator becomes where a letter goes past it, or the inverse of that.
#[cycle(rewriting)]
fn append_conjugate(
    pres: &Presentation,
    v: &mut Vector,
    left: &mut u64,
    past: Letter,
    generator: u32,
    up: bool,
) -> Result<(), Spent>
    requires ready { IsReady pres.now v.old left.old }
    requires least { 1 ≤ past.number }
    requires below { past.number < generator }
    requires most { generator ≤ length pres.now.names }
    ensures ready { OnOk result (IsReady pres.now v.new left.new) }
    ensures ok { let rels = relations_of pres.now in
        let word = turned up (conjugated rels past generator) in
        OnOk result (collected rels left.old v.old word ≡ Some (v.new, left.new)) }
    ensures spent { let rels = relations_of pres.now in
        let word = turned up (conjugated rels past generator) in
        OnErr result (collected rels left.old v.old word ≡ None) }
{
    let letter = Letter {
        number: generator,
        up,
    };
    if up {
        append_letter(pres, v, left, letter)?;
        return append_right(pres, v, left, past, generator, past.up);
    }
    append_right(pres, v, left, past, generator, !past.up)?;
    append_letter(pres, v, left, letter)
}

/// Appends what the right side of a pair becomes where the letter of its lower generator goes past
/// the other one, or the inverse of that. Past a generator itself it stays as it is.
#[cycle(rewriting)]
fn append_right(
    pres: &Presentation,
    v: &mut Vector,
    left: &mut u64,
    past: Letter,
    generator: u32,
    forward: bool,
) -> Result<(), Spent>
    requires ready { IsReady pres.now v.old left.old }
    requires least { 1 ≤ past.number }
    requires below { past.number < generator }
    requires most { generator ≤ length pres.now.names }
    ensures ready { OnOk result (IsReady pres.now v.new left.new) }
    ensures ok { let rels = relations_of pres.now in
        let word = turned forward (pieces rels past (right_of pres.now past.number generator)) in
        OnOk result (collected rels left.old v.old word ≡ Some (v.new, left.new)) }
    ensures spent { let rels = relations_of pres.now in
        let word = turned forward (pieces rels past (right_of pres.now past.number generator)) in
        OnErr result (collected rels left.old v.old word ≡ None) }
{
    let right = pres.right_side(generator, past.number);
    if forward {
        'onward: for syllable in right {
            append_pieces(pres, v, left, past, syllable.number, syllable.exp as i128)?;
        }
    } else {
        'back: for i in (0..right.len()).rev() {
            append_pieces(
                pres,
                v,
                left,
                past,
                right[i].number,
                -(right[i].exp as i128),
            )?;
        }
    }
    Ok(())
}

/// Appends what a syllable of a right side becomes there.
#[cycle(rewriting)]
fn append_pieces(
    pres: &Presentation,
    v: &mut Vector,
    left: &mut u64,
    past: Letter,
    generator: u32,
    exponent: i128,
) -> Result<(), Spent>
    requires ready { IsReady pres.now v.old left.old }
    requires least { 1 ≤ past.number }
    requires below { past.number < generator }
    requires most { generator ≤ length pres.now.names }
    ensures ready { OnOk result (IsReady pres.now v.new left.new) }
    ensures ok { let rels = relations_of pres.now in
        let word = raised (piece rels past generator) exponent in
        OnOk result (collected rels left.old v.old word ≡ Some (v.new, left.new)) }
    ensures spent { let rels = relations_of pres.now in
        let word = raised (piece rels past generator) exponent in
        OnErr result (collected rels left.old v.old word ≡ None) }
{
    if past.up {
        return append_power(pres, v, left, generator, exponent);
    }
    append_conjugates(pres, v, left, past, generator, exponent)
}

/// Appends a generator to a power.
#[cycle(rewriting)]
fn append_power(
    pres: &Presentation,
    v: &mut Vector,
    left: &mut u64,
    generator: u32,
    exponent: i128,
) -> Result<(), Spent>
    requires ready { IsReady pres.now v.old left.old }
    requires least { 1 ≤ generator }
    requires most { generator ≤ length pres.now.names }
    ensures ready { OnOk result (IsReady pres.now v.new left.new) }
    ensures ok { let word = raised (up generator ∷ []) exponent in
        OnOk result (collected (relations_of pres.now) left.old v.old word
        ≡ Some (v.new, left.new)) }
    ensures spent { let word = raised (up generator ∷ []) exponent in
        OnErr result (collected (relations_of pres.now) left.old v.old word ≡ None) }
{
    let letter = Letter {
        number: generator,
        up: exponent > 0,
    };
    'taking: for _i in 0..exponent.unsigned_abs() {
        append_letter(pres, v, left, letter)?;
    }
    Ok(())
}
