//! A calculator with a memo.

ghost use Rattle.std.specs.Prelude.{◌≡◌, []};
ghost use Rattle.reply_memo.specs.Kept.{AllKept};
ghost use Rattle.query_replies.specs.Memoized.{memoized, IsComputed};

use super::calculator::Calculator;
use super::remembering::{asked_by, recall_or_answer};
use super::replies::reply_to;
use reply_memo::Answers;
use session_io::Replier;
use std::alloc::{AllocError, Global};
use std::marker::Model;

/// A calculator that answers a line that was asked before from a memo. A line is kept without the
/// carriage return at its end. Contracts see the presentation with its table, and the kept pairs.
#[derive(Drop)]
pub struct MemoizedCalculator {
    calculator: Calculator,
    answers: Answers,
}

impl Model for MemoizedCalculator {
    ghost use Rattle.reply_memo.specs.Kept.{AllKept};
    ghost use Rattle.query_replies.specs.Memoized.{Memoized, memoized, IsComputed};

    ghost Value = { Memoized };

    ghost view = { λ m. memoized m.calculator m.answers };

    ghost invariant = { λ m. AllKept (IsComputed m.calculator) m.answers };
}

impl Replier for MemoizedCalculator {
    ghost use Rattle.query_replies.specs.Replies.{reply};
    ghost use Rattle.query_replies.specs.Memoized.{AreOf};
    ghost use Rattle.query_replies.specs.LongLines.{reply-held};
    ghost use Rattle.query_replies.specs.MoreLines.{AreOf-more};

    ghost reply = { λ m. reply m.by };

    ghost recalls = { λ m lines. AreOf lines m.pairs };

    fn reply_to(&mut self, alloc: Global, line: &[u8]) -> Result<String, AllocError> {
        match asked_by(line) {
            Some(asked) => {
                recall_or_answer(alloc, &mut self.calculator, &mut self.answers, line, asked)
            }
            None => reply_to(alloc, &mut self.calculator, line),
        }
    }

    ghost settled = { λ m line. reply-held m.by line };

    ghost widens = { λ m lines more. AreOf-more lines more m.pairs };
}

impl MemoizedCalculator {
    /// The calculator with an empty memo.
    pub fn new(calculator: Calculator, answers: Answers) -> MemoizedCalculator
        requires empty { answers ≡ [] }
        ensures { result ≡ memoized calculator [] }
    {
        MemoizedCalculator {
            calculator,
            answers,
        }
    }

    /// The memo, with the replies that it has come to hold.
    pub fn into_answers(self) -> Answers
        ensures pairs { result ≡ self.pairs }
        ensures computed { AllKept (IsComputed self.by) result }
    {
        let MemoizedCalculator {
            calculator: _calculator,
            answers,
        } = self;
        answers
    }
}
