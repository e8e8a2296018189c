//! What a phrase makes of its parts.

ghost use Rattle.std.specs.Prelude.{◌≡◌, [], ◌∷◌, ◌++◌, IfOk};
ghost use Rattle.word_text.specs.Products.{product_of};
ghost use Rattle.word_text.specs.Machine.{behind, behind_integer};
ghost use Rattle.word_text.specs.State.{empty};

use super::level::Level;
use super::now::Now;
use nil_word::{Expr, Memory};
use sqlite_items::{Boxed, Items};
use std::alloc::Global;

/// The expression of factors and the last one, which takes no memory where it is alone.
pub(super) fn whole(done: Items<Expr>, item: Expr) -> Result<Expr, Memory>
    ensures { IfOk result (λ e. e ≡ product_of (done ++ item ∷ [])) }
{
    if done.is_empty() {
        return Ok(item);
    }
    let mut done = done;
    done.push(item)?;
    Ok(Expr::Product(done))
}

/// The level behind an opening bracket or a `,`.
pub(super) fn empty_level(alloc: Global) -> Level
    ensures { result ≡ empty }
{
    Level {
        done: Items::new(alloc),
        base: None,
    }
}

/// Where the reader stands behind an atom.
pub(super) fn behind_atom(alloc: Global, level: Level, atom: Expr) -> Result<Now, Memory>
    ensures { IfOk result (λ now. now ≡ behind level.done level.base atom) }
{
    let Level { done, base } = level;
    match base {
        None => Ok(Now::After {
            done,
            item: atom,
            raised: false,
        }),
        Some(u) => {
            let u = Boxed::new(alloc, u)?;
            let v = Boxed::new(alloc, atom)?;
            Ok(Now::After {
                done,
                item: Expr::Conj(u, v),
                raised: true,
            })
        }
    }
}

/// Where the reader stands behind an integer, where an atom may stand.
pub(super) fn behind_number(
    alloc: Global,
    level: Level,
    is_one: bool,
    value: Option<i128>,
) -> Result<Option<Now>, Memory>
    ensures { IfOk result (λ now. now ≡ behind_integer level.done level.base is_one value) }
{
    let Level { done, base } = level;
    match base {
        Some(u) => {
            let u = Boxed::new(alloc, u)?;
            Ok(Some(Now::After {
                done,
                item: Expr::Pow(u, value.unwrap_or(0)),
                raised: true,
            }))
        }
        None => {
            if is_one {
                Ok(Some(Now::After {
                    done,
                    item: Expr::One,
                    raised: false,
                }))
            } else {
                Ok(None)
            }
        }
    }
}
