//! The word of an expression, where it isn't too long.

ghost use Rattle.std.specs.Prelude.{◌≡◌, ◌++◌, ◌*◌, ◌^◌, ◌<◌, ◌≤◌, ◌↔◌, ℕ, ℤ, length, map, min, Err, IfOk, OnOk};
ghost use Rattle.nil_word.specs.Words.{inverse};
ghost use Rattle.nil_word.specs.Expressions.{repeated, raised, conjugate, commutator, unrolled};

use super::Memory;
use super::expr::Expr;
use super::letter::Letter;
use super::unroll_fault::UnrollFault;
use super::word::Word;
use std::alloc::Global;

/// The word that an expression stands for, where it has at most `limit` letters. Neither time nor
/// memory goes into the letters of a word that is refused.
pub fn unroll(alloc: Global, expr: &Expr, limit: u64) -> Result<Word, UnrollFault>
    ensures word { IfOk result (λ w. w ≡ unrolled expr.now) }
    ensures long { (result ≡ Err UnrollFault.TooLong) ↔ (limit < length (unrolled expr.now)) }
{
    if letters_up_to(limit as u128 + 1, expr) > limit as u128 {
        return Err(UnrollFault::TooLong);
    }
    Ok(word_of(alloc, expr)?)
}

/// How many letters the word of an expression has, or `cap` where it has more.
fn letters_up_to(cap: u128, expr: &Expr) -> u128
    requires { cap ≤ 2 ^ 64 }
    ensures { result ≡ min cap (length (unrolled expr.now)) }
{
    match expr {
        Expr::One => 0,
        Expr::Gen(_) => cap.min(1),
        Expr::Product(items) => {
            let mut letters = 0u128;
            for item in items.as_slice() {
                letters = cap.min(letters + letters_up_to(cap, item));
            }
            letters
        }
        Expr::Pow(base, exponent) => multiple_up_to(
            cap,
            letters_up_to(cap, base.get()),
            exponent.unsigned_abs(),
        ),
        Expr::Conj(u, v) => {
            cap.min(letters_up_to(cap, u.get()) + 2 * letters_up_to(cap, v.get()))
        }
        Expr::Comm(u, v) => {
            cap.min(2 * (letters_up_to(cap, u.get()) + letters_up_to(cap, v.get())))
        }
    }
}

/// A product, or `cap` where it is more.
fn multiple_up_to(cap: u128, letters: u128, times: u128) -> u128
    requires { cap ≤ 2 ^ 64 }
    ensures { result ≡ min cap (times * letters) }
{
    cap.min(times.saturating_mul(letters))
}

/// The word of an expression. A power that is 1 takes no letters of its base.
fn word_of(alloc: Global, expr: &Expr) -> Result<Word, Memory>
    ensures { IfOk result (λ w. w ≡ unrolled expr.now) }
{
    match expr {
        Expr::One => Ok(Word::new(alloc)),
        Expr::Gen(number) => {
            let mut word = Word::new(alloc);
            word.push(Letter {
                number: *number,
                up: true,
            })?;
            Ok(word)
        }
        Expr::Product(items) => {
            let mut word = Word::new(alloc);
            for item in items.as_slice() {
                append(&mut word, &word_of(alloc, item)?)?;
            }
            Ok(word)
        }
        Expr::Pow(_, 0) => Ok(Word::new(alloc)),
        Expr::Pow(base, exponent) => power_of(alloc, &word_of(alloc, base.get())?, *exponent),
        Expr::Conj(u, v) => {
            conjugate_of(alloc, &word_of(alloc, u.get())?, &word_of(alloc, v.get())?)
        }
        Expr::Comm(u, v) => {
            commutator_of(alloc, &word_of(alloc, u.get())?, &word_of(alloc, v.get())?)
        }
    }
}

/// Joins a word to the end of another.
fn append(word: &mut Word, more: &Word) -> Result<(), Memory>
    ensures { OnOk result (word.new ≡ word.old ++ more.now) }
{
    for letter in more.letters() {
        word.push(*letter)?;
    }
    Ok(())
}

/// Joins the inverse of a word to the end of another.
fn append_inverse(word: &mut Word, more: &Word) -> Result<(), Memory>
    ensures { OnOk result (word.new ≡ word.old ++ inverse more.now) }
{
    let letters = more.letters();
    for i in (0..letters.len()).rev() {
        word.push(Letter {
            number: letters[i].number,
            up: !letters[i].up,
        })?;
    }
    Ok(())
}

/// A word to a power.
fn power_of(alloc: Global, base: &Word, exponent: i128) -> Result<Word, Memory>
    ensures { IfOk result (λ w. w ≡ raised base.now exponent) }
{
    let mut word = Word::new(alloc);
    if exponent < 0 {
        append_inverse(&mut word, base)?;
        return repeat(alloc, &word, exponent.unsigned_abs());
    }
    repeat(alloc, base, exponent.unsigned_abs())
}

/// A word so many times. No time goes into repeating the empty word.
fn repeat(alloc: Global, base: &Word, times: u128) -> Result<Word, Memory>
    ensures { IfOk result (λ w. w ≡ repeated times base.now) }
{
    let mut word = Word::new(alloc);
    if base.letters().is_empty() {
        return Ok(word);
    }
    'repeating: for _i in 0..times {
        append(&mut word, base)?;
    }
    Ok(word)
}

/// A word conjugated by another.
fn conjugate_of(alloc: Global, u: &Word, v: &Word) -> Result<Word, Memory>
    ensures { IfOk result (λ w. w ≡ conjugate u.now v.now) }
{
    let mut word = Word::new(alloc);
    append_inverse(&mut word, v)?;
    append(&mut word, u)?;
    append(&mut word, v)?;
    Ok(word)
}

/// The commutator of two words.
fn commutator_of(alloc: Global, u: &Word, v: &Word) -> Result<Word, Memory>
    ensures { IfOk result (λ w. w ≡ commutator u.now v.now) }
{
    let mut word = Word::new(alloc);
    append_inverse(&mut word, u)?;
    append_inverse(&mut word, v)?;
    append(&mut word, u)?;
    append(&mut word, v)?;
    Ok(word)
}
