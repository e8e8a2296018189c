//! Replies that are kept.

ghost use Rattle.std.specs.Prelude.{◌≡◌, ◌⊎◌, ℕ, List, [], ◌∷◌, ◌++◌, string_bytes, IfOk, IfSome};
ghost use Rattle.reply_memo.specs.Kept.{AllKept};
ghost use Rattle.reply_memo.specs.Memo.{after_keeping};
ghost use Rattle.session_io.specs.Holding.{held};
ghost use Rattle.query_replies.specs.Replies.{reply};
ghost use Rattle.query_replies.specs.Memoized.{Asks, AreOf, IsComputed};

use super::calculator::Calculator;
use super::replies::reply_to;
use line_tokens::{silent, without_return};
use reply_memo::Answers;
use session_io::LINE_LIMIT;
use std::alloc::{AllocError, Global};

/// What a line asks, without the carriage return at its end; nothing where its reply isn't kept: it
/// is long, says nothing or isn't UTF-8.
pub(crate) fn asked_by(line: &[u8]) -> Option<&str>
    ensures { IfSome result (λ asked. Asks line.now asked.now) }
{
    let asked = without_return(line);
    if line.len() > LINE_LIMIT || silent(asked) {
        return None;
    }
    match str::from_utf8(asked) {
        Ok(asked) => Some(asked),
        Err(_) => None,
    }
}

/// The kept reply to what a line asks. Where none is kept it is the calculator's, which is kept.
pub(crate) fn recall_or_answer(
    alloc: Global,
    calculator: &mut Calculator,
    answers: &mut Answers,
    line: &[u8],
    asked: &str,
) -> Result<String, AllocError>
    requires asks { Asks line.now asked.now }
    requires computed { AllKept (IsComputed calculator.old) answers.old }
    ensures text { IfOk result (λ text. string_bytes text ≡ reply calculator.old line.now) }
    ensures same { calculator.new ≡ calculator.old }
    ensures computed { AllKept (IsComputed calculator.old) answers.new }
    ensures recalls { (lines : List (List ℕ)) (whole : List ℕ) → line.now ≡ held whole
        → AreOf lines answers.old → AreOf (lines ++ whole ∷ []) answers.new }
{
    answers.find(asked);
    if let Some(reply) = answers.reply(asked) {
        return String::from_str(alloc, reply);
    }
    let reply = reply_to(alloc, calculator, line)?;
    // What can't be kept is given all the same.
    let _kept = keep(alloc, answers, asked, &reply);
    Ok(reply)
}

/// Keeps a reply, where there is memory for it.
fn keep(alloc: Global, answers: &mut Answers, asked: &str, reply: &str) -> Result<(), AllocError>
    ensures { (answers.new ≡ answers.old)
        ⊎ (answers.new ≡ after_keeping asked.now reply.now answers.old) }
{
    let asked = String::from_str(alloc, asked)?;
    let reply = String::from_str(alloc, reply)?;
    answers.keep(asked, reply)
}
