//! Relation lines as they are spelled.

ghost use Rattle.std.specs.Prelude.{◌≡◌, ◌<◌, length, map, option_map, IfOk, IfSome};
ghost use Rattle.pres_text.specs.Relation.{powers_by, right_by, spelled_by};
ghost use Rattle.pres_text.specs.Spelling.{clipped, syllables_of, powers_seen, power_by, star_by, bracket_by, spelled_clipped};
ghost use Rattle.pres_text.specs.Seen.{spelled_seen};

use line_tokens::{Kind, Token};
use nil_pres::Syllable;
use std::alloc::{AllocError, Global};

/// The generators of the bracket of a relation, 0 for a name that is none, and its right side. An
/// exponent whose magnitude is above 2^63 - 1 is the lowest number, which no relation may have.
#[derive(Drop)]
pub(super) struct SpelledRelation {
    pub above: u32,
    pub below: u32,
    pub right: Vec<Syllable>,
}

/// An exponent, or the lowest number in place of one that is out of range.
fn exponent(value: Option<i128>) -> i64
    ensures { result ≡ clipped value }
{
    match value {
        None => i64::MIN,
        Some(n) => {
            if -0x7fff_ffff_ffff_ffff <= n && n <= 0x7fff_ffff_ffff_ffff {
                n as i64
            } else {
                i64::MIN
            }
        }
    }
}

/// The power at the front of tokens, and those behind it.
fn power(tokens: &[Token]) -> Option<(Syllable, &[Token])>
    ensures less { IfSome result (λ r. length r.1.now < length tokens.now) }
    ensures power { option_map (λ r. (r.0, map (λ t. t.kind) r.1.now)) result ≡ powers_seen
        (power_by (map (λ t. t.kind) tokens.now)) }
{
    match tokens {
        [
            Token {
                kind: Kind::Name { number },
                ..
            },
            Token {
                kind: Kind::Caret,
                ..
            },
            Token {
                kind: Kind::Integer { value, .. },
                ..
            },
            rest @ ..,
        ] => Some((
            Syllable {
                number: *number,
                exp: exponent(*value),
            },
            rest,
        )),
        [
            Token {
                kind: Kind::Name { number },
                ..
            },
            rest @ ..,
        ] => {
            Some((
                Syllable {
                    number: *number,
                    exp: 1,
                },
                rest,
            ))
        }
        _ => None,
    }
}

/// The generators of the bracket at the front of tokens, and what stands behind the `=`.
fn bracket(tokens: &[Token]) -> Option<(u32, u32, &[Token])>
    ensures { option_map (λ r. (r.0, r.1, map (λ t. t.kind) r.2.now)) result ≡ bracket_by
        (map (λ t. t.kind) tokens.now) }
{
    match tokens {
        [
            Token {
                kind: Kind::SquareOpen,
                ..
            },
            Token {
                kind: Kind::Name { number: above },
                ..
            },
            Token {
                kind: Kind::Comma,
                ..
            },
            Token {
                kind: Kind::Name { number: below },
                ..
            },
            Token {
                kind: Kind::SquareClose,
                ..
            },
            Token {
                kind: Kind::Equal,
                ..
            },
            right @ ..,
        ] => Some((*above, *below, right)),
        _ => None,
    }
}

/// The tokens behind a `*` at the front.
fn behind_star(tokens: &[Token]) -> Option<&[Token]>
    ensures less { IfSome result (λ r. length r.now < length tokens.now) }
    ensures star { option_map (λ r. map (λ t. t.kind) r.now) result ≡ star_by
        (map (λ t. t.kind) tokens.now) }
{
    match tokens {
        [
            Token {
                kind: Kind::Star,
                ..
            },
            rest @ ..,
        ] => Some(rest),
        _ => None,
    }
}

/// The powers that tokens spell.
fn powers(alloc: Global, tokens: &[Token]) -> Result<Option<Vec<Syllable>>, AllocError>
    ensures { IfOk result (λ found. option_map (λ v. v.items) found ≡ option_map syllables_of
        (powers_by (map (λ t. t.kind) tokens.now))) }
{
    let mut right = Vec::new(alloc);
    let mut rest = tokens;
    'powers: loop {
        let Some((syllable, more)) = power(rest) else {
            return Ok(None);
        };
        right.push(syllable)?;
        if more.is_empty() {
            return Ok(Some(right));
        }
        let Some(behind) = behind_star(more) else {
            return Ok(None);
        };
        rest = behind;
    }
}

/// The right side that tokens spell.
fn right_side(alloc: Global, tokens: &[Token]) -> Result<Option<Vec<Syllable>>, AllocError>
    ensures { IfOk result (λ found. option_map (λ v. v.items) found ≡ option_map syllables_of
        (right_by (map (λ t. t.kind) tokens.now))) }
{
    match tokens {
        [
            Token {
                kind: Kind::Integer { is_one: true, .. },
                ..
            },
        ] => Ok(Some(Vec::new(alloc))),
        _ => powers(alloc, tokens),
    }
}

/// What the tokens of a relation line spell, where they have its form.
pub(super) fn spelled(
    alloc: Global,
    tokens: &[Token],
) -> Result<Option<SpelledRelation>, AllocError>
    ensures { IfOk result (λ found. option_map spelled_seen found ≡ option_map spelled_clipped
        (spelled_by (map (λ t. t.kind) tokens.now))) }
{
    let Some((above, below, rest)) = bracket(tokens) else {
        return Ok(None);
    };
    match right_side(alloc, rest)? {
        None => Ok(None),
        Some(right) => Ok(Some(SpelledRelation {
            above,
            below,
            right,
        })),
    }
}
