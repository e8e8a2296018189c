//! The texts of replies.

ghost use Rattle.std.specs.Prelude.{◌≡◌, ◌≤◌, length, string_bytes, IfOk};
ghost use Rattle.nil_word.specs.Words.{IsWordIn};
ghost use Rattle.nil_word.specs.Expressions.{unrolled, IsShaped};
ghost use Rattle.nil_word.specs.Queries.{IsShapedQuery};
ghost use Rattle.word_text.specs.FaultTexts.{fault_text};
ghost use Rattle.word_text.specs.Vectors.{text_of_entries};
ghost use Rattle.session_io.specs.Lines.{as_line};
ghost use Rattle.collect_text.specs.Limits.{letter_limit};
ghost use Rattle.collect_text.specs.Replies.{word_reply, query_reply, reply};

use super::limits::LETTER_LIMIT;
use left_collect::{CollectFault, collect};
use line_tokens::without_return;
use nil_pres::Presentation;
use nil_word::{Expr, Query, UnrollFault, Vector, Word, unroll};
use session_io::LINE_LIMIT;
use std::alloc::{AllocError, Global};
use word_text::laws::readings;
use word_text::{QueryFault, read_query, vector_text};

/// The reply to a line with its line feed, or nothing for a blank one.
#[tactic(auto, unfolding(crate::specs::Replies::reply))]
pub(crate) fn reply_to(
    alloc: Global,
    pres: &Presentation,
    line: &[u8],
) -> Result<String, AllocError>
    ensures { IfOk result (λ text. string_bytes text ≡ reply pres.now line.now) }
{
    readings();
    if line.len() > LINE_LIMIT {
        return String::from_str(alloc, "long\n");
    }
    match read_query(alloc, pres, without_return(line)) {
        Ok(query) => reply_to_query(alloc, pres, &query),
        Err(QueryFault::Memory) => Err(AllocError),
        Err(fault) => fault_line(alloc, &fault),
    }
}

/// The reply to a query.
fn reply_to_query(alloc: Global, pres: &Presentation, query: &Query) -> Result<String, AllocError>
    requires shaped { IsShapedQuery (length pres.now.names) query.now }
    ensures { IfOk result (λ text. string_bytes text ≡ query_reply pres.now query.now) }
{
    match query {
        Query::Value(expr) => reply_to_expr(alloc, pres, expr),
        Query::Same(_, _) | Query::Solve(_, _) | Query::Quotient(_, _) => {
            String::from_str(alloc, "kind\n")
        }
        Query::Blank => Ok(String::new(alloc)),
    }
}

/// The reply to an expression.
fn reply_to_expr(alloc: Global, pres: &Presentation, expr: &Expr) -> Result<String, AllocError>
    requires shaped { IsShaped (length pres.now.names) expr.now }
    ensures { IfOk result (λ text. string_bytes text ≡ word_reply pres.now (unrolled expr.now)) }
{
    match unroll(alloc, expr, LETTER_LIMIT) {
        Ok(word) => reply_to_word(alloc, pres, &word),
        Err(UnrollFault::TooLong) => String::from_str(alloc, "longword\n"),
        Err(UnrollFault::Memory) => Err(AllocError),
    }
}

/// The reply to a word that isn't too long.
fn reply_to_word(alloc: Global, pres: &Presentation, word: &Word) -> Result<String, AllocError>
    requires inside { IsWordIn 1 (length pres.now.names) word.now }
    requires few { length word.now ≤ letter_limit }
    ensures { IfOk result (λ text. string_bytes text ≡ word_reply pres.now word.now) }
{
    match collect(alloc, pres, word) {
        Ok(vector) => vector_line(alloc, &vector),
        Err(CollectFault::LongWord) => unreachable!(),
        Err(CollectFault::Steps) => String::from_str(alloc, "steps\n"),
        Err(CollectFault::Memory) => Err(AllocError),
    }
}

/// A vector as a line.
fn vector_line(alloc: Global, vector: &Vector) -> Result<String, AllocError>
    ensures { IfOk result (λ text. string_bytes text ≡ as_line (text_of_entries vector.now)) }
{
    let mut text = vector_text(alloc, vector)?;
    text.push_str("\n")?;
    Ok(text)
}

/// The first fault of a line as a line. There is none where memory was wanting.
fn fault_line(alloc: Global, fault: &QueryFault) -> Result<String, AllocError>
    ensures { IfOk result (λ text. string_bytes text ≡ as_line (fault_text fault.now)) }
{
    let mut text = fault.text(alloc)?;
    text.push_str("\n")?;
    Ok(text)
}
