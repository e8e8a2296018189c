//! The query of tokens, or their first fault.

ghost use Rattle.std.specs.Prelude.{◌≡◌, ◌+◌, ◌^◌, ◌<◌, ◌≤◌, Ok, Err, IfOk, IfErr, IfSome};
ghost use Rattle.nil_num.specs.Outcome.{Gives};
ghost use Rattle.nil_word.specs.declared.query.Query.{Query};
ghost use Rattle.word_text.specs.declared.query_fault.QueryFault.{QueryFault};
ghost use Rattle.word_text.specs.Faults.{deeper, is_caret, IsRead, IsFirstFault};
ghost use Rattle.word_text.specs.Seen.{fault_place};
ghost use Rattle.word_text.specs.Verdict.{trouble, verdict};

use super::query_fault::QueryFault;
use super::reader::Reader;
use line_tokens::{Kind, Token};
use nil_word::Query;
use std::alloc::Global;

/// What is wrong with a token with which a line may go on.
fn trouble_at(opened: usize, raised: bool, token: &Token) -> Option<QueryFault>
    ensures { result ≡ trouble opened raised token.now.place token.now.kind }
{
    match token.kind {
        Kind::Name { number } if number == 0 => Some(QueryFault::Unknown(token.place)),
        Kind::Integer { value: None, .. } if raised => Some(QueryFault::Number(token.place)),
        Kind::Open if opened >= 200 => Some(QueryFault::Deep(token.place)),
        Kind::SquareOpen if opened >= 200 => Some(QueryFault::Deep(token.place)),
        _ => None,
    }
}

/// How many brackets are open behind one more token.
fn opened_behind(opened: usize, kind: Kind) -> usize
    requires { opened ≤ 200 }
    ensures { result ≡ deeper opened kind }
{
    match kind {
        Kind::Open => opened + 1,
        Kind::SquareOpen => opened + 1,
        Kind::Close => opened.saturating_sub(1),
        Kind::SquareClose => opened.saturating_sub(1),
        _ => opened,
    }
}

/// Whether a token is a `^`.
fn caret(kind: Kind) -> bool
    ensures { result ≡ is_caret kind }
{
    match kind {
        Kind::Caret => true,
        _ => false,
    }
}

/// The query of tokens, or their first fault.
fn judge(alloc: Global, tokens: &[Token], bytes: usize) -> Result<Query, QueryFault>
    requires { bytes + 1 < 2 ^ 64 }
    ensures { Gives fault_place result (λ r. r ≡ verdict bytes tokens.now) }
{
    let mut reader = Reader::new(alloc);
    let mut opened = 0;
    let mut raised = false;
    for token in tokens {
        if !reader.step(alloc, token.kind)? {
            return Err(QueryFault::Syntax(token.place));
        }
        if let Some(fault) = trouble_at(opened, raised, token) {
            return Err(fault);
        }
        opened = opened_behind(opened, token.kind);
        raised = caret(token.kind);
    }
    match reader.finish()? {
        Some(query) => Ok(query),
        None => Err(QueryFault::Syntax(bytes + 1)),
    }
}

/// A query from its tokens. The first fault of the line is named.
pub(super) fn read_tokens(
    alloc: Global,
    tokens: &[Token],
    bytes: usize,
) -> Result<Query, QueryFault>
    requires { bytes + 1 < 2 ^ 64 }
    // What is read is in the grammar, and no token of it has a fault.
    ensures read { IfOk result (λ q. IsRead tokens.now q) }
    // A fault is the first one.
    ensures fault { IfErr result (λ f. IfSome (fault_place f) (IsFirstFault tokens.now bytes)) }
    // What is in the grammar is read, unless memory runs out, and no other query is.
    ensures only { (q : Query) → IsRead tokens.now q → Gives fault_place result (λ r. r ≡ Ok q) }
    // A line with a fault is refused with it, unless memory runs out.
    ensures only_fault { (f : QueryFault) → IsFirstFault tokens.now bytes f
        → Gives fault_place result (λ r. r ≡ Err f) }
{
    judge(alloc, tokens, bytes)
}
