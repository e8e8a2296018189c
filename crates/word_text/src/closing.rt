//! A token behind a whole expression.

ghost use Rattle.std.specs.Prelude.{◌≡◌, [], ◌∷◌, reverse, Some, None, cond, IfOk, MatchOption};
ghost use Rattle.nil_word.specs.declared.expr.Expr.TheVariants.{Comm};
ghost use Rattle.word_text.specs.declared.head.Head.{Head};
ghost use Rattle.word_text.specs.Brackets.{in_round, in_square, in_second};
ghost use Rattle.word_text.specs.State.{moved};
ghost use Rattle.word_text.specs.Machine.{next_close, next_comma, next_square_close, next_closing, next_part, after_equal, after_bar};

use super::bracket::Bracket;
use super::frame::Frame;
use super::head::Head;
use super::level::Level;
use super::now::Now;
use super::opening::push_frame;
use super::phrases::{behind_atom, empty_level};
use line_tokens::Kind;
use nil_word::{Expr, Memory};
use sqlite_items::{Boxed, Items};
use std::alloc::Global;

/// The innermost bracket.
fn pop_frame(frames: &mut Items<Frame>) -> Option<Frame>
    ensures { MatchOption result (reverse frames.old ≡ [])
        (λ frame. reverse frames.old ≡ frame ∷ reverse frames.new) }
{
    frames.pop()
}

/// The level around a round bracket.
fn in_round(frame: Frame) -> Option<Level>
    ensures { result ≡ in_round frame }
{
    let Frame { level, bracket } = frame;
    match bracket {
        Bracket::Round => Some(level),
        _ => None,
    }
}

/// The level around a square bracket that waits for its `,`.
fn in_square(frame: Frame) -> Option<Level>
    ensures { result ≡ in_square frame }
{
    let Frame { level, bracket } = frame;
    match bracket {
        Bracket::Square => Some(level),
        _ => None,
    }
}

/// The level around a square bracket behind its `,`, and the expression before the `,`.
fn in_second(frame: Frame) -> Option<(Level, Expr)>
    ensures { result ≡ in_second frame }
{
    let Frame { level, bracket } = frame;
    match bracket {
        Bracket::Second(first) => Some((level, first)),
        _ => None,
    }
}

/// Where the reader stands behind a `)`.
fn behind_close(alloc: Global, frames: &mut Items<Frame>, expr: Expr) -> Result<Option<Now>, Memory>
    ensures { (h : Head) → IfOk result (λ now. moved h (reverse frames.new) now ≡ next_close h
        (reverse frames.old) expr) }
{
    let Some(frame) = pop_frame(frames) else {
        return Ok(None);
    };
    let Some(level) = in_round(frame) else {
        return Ok(None);
    };
    let now = behind_atom(alloc, level, expr)?;
    Ok(Some(now))
}

/// Where the reader stands behind a `,`.
fn behind_comma(alloc: Global, frames: &mut Items<Frame>, expr: Expr) -> Result<Option<Now>, Memory>
    ensures { (h : Head) → IfOk result (λ now. moved h (reverse frames.new) now ≡ next_comma h
        (reverse frames.old) expr) }
{
    let Some(frame) = pop_frame(frames) else {
        return Ok(None);
    };
    let Some(level) = in_square(frame) else {
        return Ok(None);
    };
    let bracket = Bracket::Second(expr);
    push_frame(frames, Frame { level, bracket })?;
    Ok(Some(Now::Atom(empty_level(alloc))))
}

/// A commutator.
fn commutator(alloc: Global, first: Expr, second: Expr) -> Result<Expr, Memory>
    ensures { IfOk result (λ e. e ≡ Comm first second) }
{
    let first = Boxed::new(alloc, first)?;
    let second = Boxed::new(alloc, second)?;
    Ok(Expr::Comm(first, second))
}

/// Where the reader stands behind a `]`.
fn behind_square_close(
    alloc: Global,
    frames: &mut Items<Frame>,
    expr: Expr,
) -> Result<Option<Now>, Memory>
    ensures { (h : Head) → IfOk result (λ now. moved h
        (reverse frames.new) now ≡ next_square_close h (reverse frames.old) expr) }
{
    let Some(frame) = pop_frame(frames) else {
        return Ok(None);
    };
    let Some((level, first)) = in_second(frame) else {
        return Ok(None);
    };
    let atom = commutator(alloc, first, expr)?;
    let now = behind_atom(alloc, level, atom)?;
    Ok(Some(now))
}

/// Whether a `=` may stand behind the first expression. It makes the line a comparison.
fn takes_equal(head: &mut Head, expr: Expr) -> bool
    ensures { cond result (Some head.new) None ≡ after_equal head.old expr }
{
    match head {
        Head::Value => {
            *head = Head::Same(expr);
            true
        }
        _ => false,
    }
}

/// Where the reader stands behind a `=`.
fn behind_equal(alloc: Global, head: &mut Head, frames: &Items<Frame>, expr: Expr) -> Option<Now>
    ensures { moved head.new (reverse frames.now) result ≡ next_part (reverse frames.now)
        (after_equal head.old expr) }
{
    if !frames.is_empty() {
        return None;
    }
    if takes_equal(head, expr) {
        Some(Now::Atom(empty_level(alloc)))
    } else {
        None
    }
}

/// Whether a `|` may stand behind the first expression.
fn takes_bar(head: &mut Head, expr: Expr) -> bool
    ensures { cond result (Some head.new) None ≡ after_bar head.old expr }
{
    match head {
        Head::Solve => {
            *head = Head::SolveAfter(expr);
            true
        }
        Head::Quotient => {
            *head = Head::QuotientAfter(expr);
            true
        }
        _ => false,
    }
}

/// Where the reader stands behind a `|`.
fn behind_bar(alloc: Global, head: &mut Head, frames: &Items<Frame>, expr: Expr) -> Option<Now>
    ensures { moved head.new (reverse frames.now) result ≡ next_part (reverse frames.now)
        (after_bar head.old expr) }
{
    if !frames.is_empty() {
        return None;
    }
    if takes_bar(head, expr) {
        Some(Now::Atom(empty_level(alloc)))
    } else {
        None
    }
}

/// Where the reader stands behind one token that follows an expression.
pub(super) fn behind_closing(
    alloc: Global,
    head: &mut Head,
    frames: &mut Items<Frame>,
    expr: Expr,
    kind: Kind,
) -> Result<Option<Now>, Memory>
    ensures { IfOk result (λ now. moved head.new (reverse frames.new) now ≡ next_closing head.old
        (reverse frames.old) expr kind) }
{
    match kind {
        Kind::Close => behind_close(alloc, frames, expr),
        Kind::Comma => behind_comma(alloc, frames, expr),
        Kind::SquareClose => behind_square_close(alloc, frames, expr),
        Kind::Equal => Ok(behind_equal(alloc, head, frames, expr)),
        Kind::Bar => Ok(behind_bar(alloc, head, frames, expr)),
        _ => Ok(None),
    }
}
