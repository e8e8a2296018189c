//! Reads a query line.

ghost use Rattle.std.specs.Prelude.{◌≡◌, length, Ok, Err, IfOk, IfErr, IfSome};
ghost use Rattle.nil_num.specs.Outcome.{Gives};
ghost use Rattle.nil_word.specs.declared.query.Query.{Query};
ghost use Rattle.word_text.specs.declared.query_fault.QueryFault.{QueryFault};
ghost use Rattle.word_text.specs.Lines.{ReadsAs, FailsWith};
ghost use Rattle.word_text.specs.Seen.{fault_place};
ghost use Rattle.word_text.specs.Shaping.{IsShapedQuery};

use super::judging::read_tokens;
use super::query_fault::QueryFault;
use super::words::QueryWords;
use line_tokens::{cut, silent};
use nil_pres::Presentation;
use nil_word::Query;
use std::alloc::Global;

/// Reads one line: its query, or its first fault from the left.
pub fn read_query(alloc: Global, pres: &Presentation, line: &[u8]) -> Result<Query, QueryFault>
    ensures read { IfOk result (λ q. ReadsAs pres.now.names line.now q) }
    ensures shaped { IfOk result (λ q. IsShapedQuery (length pres.now.names) q) }
    ensures fault { IfErr result (λ f. IfSome (fault_place f) (FailsWith pres.now.names line.now)) }
    // The only query of a line is read, and the first fault named, unless memory runs out.
    ensures only { (q : Query) → ReadsAs pres.now.names line.now q
        → Gives fault_place result (λ r. r ≡ Ok q) }
    ensures only_fault { (f : QueryFault) → FailsWith pres.now.names line.now f
        → Gives fault_place result (λ r. r ≡ Err f) }
{
    if silent(line) {
        return Ok(Query::Blank);
    }
    let tokens = cut(alloc, &QueryWords { pres }, line)?;
    read_tokens(alloc, tokens.as_slice(), line.len())
}
