//! Replies to lines, and their texts.

ghost use Rattle.std.specs.Prelude.{◌≡◌, string_bytes, IfOk};
ghost use Rattle.word_text.specs.FaultTexts.{fault_text};
ghost use Rattle.session_io.specs.Lines.{as_line};
ghost use Rattle.query_replies.specs.Replies.{line_of, reply, reply_of};

use super::calculator::Calculator;
use group_eval::Reply;
use line_tokens::without_return;
use session_io::LINE_LIMIT;
use std::alloc::{AllocError, Global};
use word_text::laws::readings;
use word_text::{QueryFault, read_query, vector_text};

/// The reply to a line, or nothing where it isn't a query.
pub(crate) fn reply_of(
    alloc: Global,
    calculator: &mut Calculator,
    line: &[u8],
) -> Result<Option<Reply>, AllocError>
    ensures reply { IfOk result (λ reply. reply ≡ reply_of calculator.old line.now) }
    ensures same { calculator.new ≡ calculator.old }
{
    readings();
    if line.len() > LINE_LIMIT {
        return Ok(None);
    }
    match read_query(alloc, calculator.pres(), without_return(line)) {
        Ok(query) => {
            let reply = calculator.answer(alloc, &query)?;
            Ok(Some(reply))
        }
        Err(QueryFault::Memory) => Err(AllocError),
        Err(_) => Ok(None),
    }
}

/// The reply to a line with its line feed, or nothing for a blank one.
pub(crate) fn reply_to(
    alloc: Global,
    calculator: &mut Calculator,
    line: &[u8],
) -> Result<String, AllocError>
    ensures text { IfOk result (λ text. string_bytes text ≡ reply calculator.old line.now) }
    ensures same { calculator.new ≡ calculator.old }
{
    readings();
    if line.len() > LINE_LIMIT {
        return String::from_str(alloc, "long\n");
    }
    match read_query(alloc, calculator.pres(), without_return(line)) {
        Ok(query) => {
            let reply = calculator.answer(alloc, &query)?;
            reply_line(alloc, &reply)
        }
        Err(QueryFault::Memory) => Err(AllocError),
        Err(fault) => fault_line(alloc, &fault),
    }
}

/// A reply as a line.
fn reply_line(alloc: Global, reply: &Reply) -> Result<String, AllocError>
    ensures { IfOk result (λ text. string_bytes text ≡ line_of reply.now) }
{
    match reply {
        Reply::Vector(vector) => {
            let mut text = vector_text(alloc, vector)?;
            text.push_str("\n")?;
            Ok(text)
        }
        Reply::Yes => String::from_str(alloc, "yes\n"),
        Reply::No => String::from_str(alloc, "no\n"),
        Reply::Wide => String::from_str(alloc, "wide\n"),
        Reply::Nothing => Ok(String::new(alloc)),
    }
}

/// The first fault of a line as a line. There is none where memory was wanting.
fn fault_line(alloc: Global, fault: &QueryFault) -> Result<String, AllocError>
    ensures { IfOk result (λ text. string_bytes text ≡ as_line (fault_text fault.now)) }
{
    let mut text = fault.text(alloc)?;
    text.push_str("\n")?;
    Ok(text)
}
