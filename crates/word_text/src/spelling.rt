//! The tokens of a written query.

ghost use Rattle.std.specs.Prelude.{◌≡◌, [], ◌∷◌, ◌++◌, IfOk, OnOk};
ghost use Rattle.word_text.specs.Writing.{enclosed, star_before, exponent_token, breaks_item, breaks_base, breaks_conjugator, written, written_query};

use super::shape::Shape;
use line_tokens::Kind;
use nil_word::{Expr, Memory, Query};
use std::alloc::Global;

fn shape_of(expr: &Expr) -> Shape
    ensures { result ≡ (written expr.now).shape }
{
    match expr {
        Expr::One => Shape::One,
        Expr::Gen(_) => Shape::Atom,
        Expr::Product(_) => Shape::Many,
        Expr::Pow(_, _) => Shape::Raised,
        Expr::Conj(_, _) => Shape::Raised,
        Expr::Comm(_, _) => Shape::Atom,
    }
}

/// Whether an expression stands in brackets inside a product.
fn item_breaks(expr: &Expr) -> bool
    ensures { result ≡ breaks_item (written expr.now).shape }
{
    match shape_of(expr) {
        Shape::Many => true,
        _ => false,
    }
}

/// Whether it stands in brackets before a `^`.
fn base_breaks(expr: &Expr) -> bool
    ensures { result ≡ breaks_base (written expr.now).shape }
{
    match shape_of(expr) {
        Shape::Many => true,
        Shape::Raised => true,
        _ => false,
    }
}

/// Whether it stands in brackets behind a `^`.
fn conjugator_breaks(expr: &Expr) -> bool
    ensures { result ≡ breaks_conjugator (written expr.now).shape }
{
    match shape_of(expr) {
        Shape::Atom => false,
        _ => true,
    }
}

/// The integer of an exponent.
fn exponent_kind(exponent: i128) -> Kind
    ensures { result ≡ exponent_token exponent }
{
    Kind::Integer {
        is_one: exponent == 1,
        value: Some(exponent),
    }
}

fn push(tokens: &mut Vec<Kind>, kind: Kind) -> Result<(), Memory>
    ensures { OnOk result (tokens.new.items ≡ tokens.old.items ++ kind ∷ []) }
{
    tokens.push(kind)?;
    Ok(())
}

/// The `*` before a factor that isn't the first.
fn push_star(tokens: &mut Vec<Kind>, place: usize) -> Result<(), Memory>
    ensures { OnOk result (tokens.new.items ≡ tokens.old.items ++ star_before place) }
{
    if place == 0 {
        Ok(())
    } else {
        push(tokens, Kind::Star)
    }
}

/// An expression, in round brackets where they are asked for.
#[cycle(spelling)]
fn push_enclosed(tokens: &mut Vec<Kind>, brackets: bool, expr: &Expr) -> Result<(), Memory>
    ensures { OnOk result (tokens.new.items ≡ tokens.old.items
        ++ enclosed brackets (written expr.now).tokens) }
{
    if !brackets {
        return push_expr(tokens, expr);
    }
    push(tokens, Kind::Open)?;
    push_expr(tokens, expr)?;
    push(tokens, Kind::Close)
}

#[cycle(spelling)]
fn push_expr(tokens: &mut Vec<Kind>, expr: &Expr) -> Result<(), Memory>
    ensures { OnOk result (tokens.new.items ≡ tokens.old.items ++ (written expr.now).tokens) }
{
    match expr {
        Expr::One => push(tokens, exponent_kind(1)),
        Expr::Gen(number) => push(tokens, Kind::Name { number: *number }),
        Expr::Product(items) => {
            let items = items.as_slice();
            for i in 0..items.len() {
                let item = &items[i];
                push_star(tokens, i)?;
                push_enclosed(tokens, item_breaks(item), item)?;
            }
            Ok(())
        }
        Expr::Pow(base, exponent) => {
            let base = base.get();
            push_enclosed(tokens, base_breaks(base), base)?;
            push(tokens, Kind::Caret)?;
            push(tokens, exponent_kind(*exponent))
        }
        Expr::Conj(u, v) => {
            let conjugated = u.get();
            let conjugator = v.get();
            push_enclosed(tokens, base_breaks(conjugated), conjugated)?;
            push(tokens, Kind::Caret)?;
            push_enclosed(tokens, conjugator_breaks(conjugator), conjugator)
        }
        Expr::Comm(u, v) => {
            let first = u.get();
            let second = v.get();
            push(tokens, Kind::SquareOpen)?;
            push_expr(tokens, first)?;
            push(tokens, Kind::Comma)?;
            push_expr(tokens, second)?;
            push(tokens, Kind::SquareClose)
        }
    }
}

/// Two expressions with a token between them.
fn push_two(tokens: &mut Vec<Kind>, u: &Expr, between: Kind, v: &Expr) -> Result<(), Memory>
    ensures { OnOk result (tokens.new.items ≡ tokens.old.items
        ++ ((written u.now).tokens ++ between ∷ (written v.now).tokens)) }
{
    push_expr(tokens, u)?;
    push(tokens, between)?;
    push_expr(tokens, v)
}

/// The tokens of a written query.
pub(super) fn tokens_of(alloc: Global, query: &Query) -> Result<Vec<Kind>, Memory>
    ensures { IfOk result (λ tokens. tokens.items ≡ written_query query.now) }
{
    let mut tokens = Vec::new(alloc);
    match query {
        Query::Value(expr) => push_expr(&mut tokens, expr)?,
        Query::Same(u, v) => push_two(&mut tokens, u, Kind::Equal, v)?,
        Query::Solve(u, v) => {
            push(&mut tokens, Kind::Solve)?;
            push_two(&mut tokens, u, Kind::Bar, v)?;
        }
        Query::Quotient(u, v) => {
            push(&mut tokens, Kind::Quotient)?;
            push_two(&mut tokens, u, Kind::Bar, v)?;
        }
        Query::Blank => (),
    }
    Ok(tokens)
}
