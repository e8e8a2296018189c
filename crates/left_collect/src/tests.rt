//! Worked rows, and calls with ample memory.

ghost use Rattle.std.specs.Prelude.{◌≡◌, length, IfOk};
ghost use Rattle.nil_word.specs.Words.{IsWordIn};

use crate::*;
use nil_pres::{Builder, Presentation, Syllable};
use nil_word::{Letter, Vector, Word};
use std::alloc::Global;
use std::test::Fail;

const A1: Letter = Letter {
    number: 1,
    up: true,
};

const A2: Letter = Letter {
    number: 2,
    up: true,
};

const A3: Letter = Letter {
    number: 3,
    up: true,
};

const A1_INVERSE: Letter = Letter {
    number: 1,
    up: false,
};

const A2_INVERSE: Letter = Letter {
    number: 2,
    up: false,
};

/// `[a2,a1] = a3^exp`.
fn heisenberg(alloc: Global, exp: i64) -> Result<Presentation, Fail>
    ensures { IfOk result (λ p. length p.names ≡ 3) }
{
    let mut builder = Builder::new(alloc)?;
    builder.add_name("a1")?;
    builder.add_name("a2")?;
    builder.add_name("a3")?;
    builder.add_relation(2, 1, &[Syllable { number: 3, exp }])?;
    Ok(builder.finish().ok_or("no name")?)
}

/// `[a3,a2] = a4` and `[a4,a1] = a5`, which is inconsistent.
fn inconsistent(alloc: Global) -> Result<Presentation, Fail>
    ensures { IfOk result (λ p. length p.names ≡ 5) }
{
    let mut builder = Builder::new(alloc)?;
    builder.add_name("a1")?;
    builder.add_name("a2")?;
    builder.add_name("a3")?;
    builder.add_name("a4")?;
    builder.add_name("a5")?;
    builder.add_relation(3, 2, &[Syllable { number: 4, exp: 1 }])?;
    builder.add_relation(4, 1, &[Syllable { number: 5, exp: 1 }])?;
    Ok(builder.finish().ok_or("no name")?)
}

/// The word of letters, without those that are none of `n` generators.
fn word_in(alloc: Global, n: u32, letters: &[Letter]) -> Result<Word, Fail>
    ensures { IfOk result (λ w. IsWordIn 1 n w) }
{
    let mut word = Word::new(alloc);
    for letter in letters {
        if 1 <= letter.number && letter.number <= n {
            word.push(*letter)?;
        }
    }
    Ok(word)
}

#[test]
fn each_letter_that_is_appended_counts(rt: HostRuntime) -> Result<(), Fail> {
    let alloc = rt.alloc();
    let pres = heisenberg(alloc, 1)?;
    let mut vector = Vector::zero(alloc, 3)?;
    vector.set(2, 2);
    let mut count = 2;
    append(alloc, &pres, &mut vector, A1, &mut count)?;
    assert_eq!(rt; vector.entries(), [1, 2, 2].as_slice());
    assert_eq!(rt; count, 7);
    Ok(())
}

#[test]
fn words_are_collected(rt: HostRuntime) -> Result<(), Fail> {
    let alloc = rt.alloc();
    let pres = heisenberg(alloc, 1)?;
    let squares = collect(alloc, &pres, &word_in(alloc, 3, &[A2, A2, A1, A1])?)?;
    assert_eq!(rt; squares.entries(), [2, 2, 4].as_slice());
    Ok(())
}

#[test]
fn inverses_are_collected(rt: HostRuntime) -> Result<(), Fail> {
    let alloc = rt.alloc();
    let pres = heisenberg(alloc, 1)?;
    let past_inverse = collect(alloc, &pres, &word_in(alloc, 3, &[A2, A1_INVERSE])?)?;
    assert_eq!(rt; past_inverse.entries(), [-1, 1, -1].as_slice());
    let inverse_past = collect(alloc, &pres, &word_in(alloc, 3, &[A2_INVERSE, A1])?)?;
    assert_eq!(rt; inverse_past.entries(), [1, -1, -1].as_slice());
    Ok(())
}

#[test]
fn an_inconsistent_presentation_collects(rt: HostRuntime) -> Result<(), Fail> {
    let alloc = rt.alloc();
    let pres = inconsistent(alloc)?;
    let vector = collect(alloc, &pres, &word_in(alloc, 5, &[A3, A2, A1])?)?;
    assert_eq!(rt; vector.entries(), [1, 1, 1, 1, 1].as_slice());
    Ok(())
}

#[test]
fn the_budget_is_two_to_the_24(rt: HostRuntime) -> Result<(), Fail> {
    let alloc = rt.alloc();
    let word = word_in(alloc, 3, &[A2, A1])?;
    let vector = collect(alloc, &heisenberg(alloc, 16_777_213)?, &word)?;
    assert_eq!(rt; vector.entries(), [1, 1, 16_777_213].as_slice());
    let over = collect(alloc, &heisenberg(alloc, -16_777_214)?, &word);
    assert!(rt; matches!(over, Err(CollectFault::Steps)));
    Ok(())
}

#[test]
fn words_of_65_letters_are_too_long(rt: HostRuntime) -> Result<(), Fail> {
    let alloc = rt.alloc();
    let pres = heisenberg(alloc, 1)?;
    let longest = word_in(alloc, 3, &[A1; 64])?;
    assert_eq!(rt;
        collect(alloc, &pres, &longest)?.entries(),
        [64, 0, 0].as_slice()
    );
    let longer = word_in(alloc, 3, &[A1; 65])?;
    assert!(rt; matches!(collect(alloc, &pres, &longer), Err(CollectFault::LongWord)));
    Ok(())
}
