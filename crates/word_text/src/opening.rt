//! A token where an atom may stand.

ghost use Rattle.std.specs.Prelude.{◌≡◌, [], ◌∷◌, reverse, Some, IfOk, OnOk};
ghost use Rattle.word_text.specs.declared.head.Head.{Head};
ghost use Rattle.word_text.specs.declared.head.Head.TheVariants.{Value};
ghost use Rattle.word_text.specs.declared.now.Now.TheVariants.{Atom};
ghost use Rattle.word_text.specs.State.{at, empty, moved};
ghost use Rattle.word_text.specs.Machine.{next_atom, next_start};

use super::bracket::Bracket;
use super::frame::Frame;
use super::head::Head;
use super::level::Level;
use super::now::Now;
use super::phrases::{behind_atom, behind_number, empty_level};
use line_tokens::Kind;
use nil_word::{Expr, Memory};
use sqlite_items::Items;
use std::alloc::Global;

/// Puts a bracket around all that follows.
pub(super) fn push_frame(frames: &mut Items<Frame>, frame: Frame) -> Result<(), Memory>
    ensures { OnOk result (reverse frames.new ≡ frame ∷ reverse frames.old) }
{
    frames.push(frame)
}

/// Where the reader stands behind an opening bracket.
fn behind_opening(
    alloc: Global,
    frames: &mut Items<Frame>,
    level: Level,
    bracket: Bracket,
) -> Result<Option<Now>, Memory>
    ensures { (h : Head) → IfOk result (λ now. moved h (reverse frames.new) now ≡ Some
        (at h (record { level = level; bracket = bracket } ∷ reverse frames.old) (Atom empty))) }
{
    push_frame(frames, Frame { level, bracket })?;
    Ok(Some(Now::Atom(empty_level(alloc))))
}

/// Where the reader stands behind one token, where an atom may stand.
pub(super) fn behind_first(
    alloc: Global,
    frames: &mut Items<Frame>,
    level: Level,
    kind: Kind,
) -> Result<Option<Now>, Memory>
    ensures { (h : Head) → IfOk result (λ now. moved h (reverse frames.new) now ≡ next_atom h
        (reverse frames.old) level kind) }
{
    match kind {
        Kind::Name { number } => {
            let now = behind_atom(alloc, level, Expr::Gen(number))?;
            Ok(Some(now))
        }
        Kind::Integer { is_one, value } => behind_number(alloc, level, is_one, value),
        Kind::Open => behind_opening(alloc, frames, level, Bracket::Round),
        Kind::SquareOpen => behind_opening(alloc, frames, level, Bracket::Square),
        _ => Ok(None),
    }
}

/// Where the reader stands behind a first token that is no keyword.
fn behind_first_atom(
    alloc: Global,
    frames: &mut Items<Frame>,
    kind: Kind,
) -> Result<Option<Now>, Memory>
    ensures { IfOk result (λ now. moved Value (reverse frames.new) now
        ≡ next_atom Value [] empty kind) }
{
    *frames = Items::new(alloc);
    behind_first(alloc, frames, empty_level(alloc), kind)
}

/// Where the reader stands behind the first token, which also tells what the line is.
pub(super) fn behind_start(
    alloc: Global,
    head: &mut Head,
    frames: &mut Items<Frame>,
    kind: Kind,
) -> Result<Option<Now>, Memory>
    ensures { IfOk result (λ now. moved head.new (reverse frames.new) now ≡ next_start kind) }
{
    match kind {
        Kind::Solve => {
            *head = Head::Solve;
            *frames = Items::new(alloc);
            Ok(Some(Now::Atom(empty_level(alloc))))
        }
        Kind::Quotient => {
            *head = Head::Quotient;
            *frames = Items::new(alloc);
            Ok(Some(Now::Atom(empty_level(alloc))))
        }
        _ => {
            *head = Head::Value;
            behind_first_atom(alloc, frames, kind)
        }
    }
}
