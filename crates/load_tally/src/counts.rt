//! Counts of replies.

ghost use Rattle.std.specs.Prelude.{◌≡◌, ◌+◌, ◌<◌, ◌^◌, [], IfOk, string_bytes};

use super::summing::with_entries;
use group_eval::Reply;
use std::alloc::{AllocError, Global};
use std::fmt;

/// The replies to query lines, counted.
#[derive(Clone, Copy, Debug, PartialEq, Eq)]
pub struct Tally {
    /// All lines.
    pub queries: u64,
    pub vectors: u64,
    pub yes: u64,
    pub no: u64,
    pub wide: u64,
    /// The sum over all vectors and places k of k times the entry, as a remainder from 0 to
    /// 999,999,999.
    pub sum: u64,
}

impl Tally {
    ghost use Rattle.load_tally.specs.Tallies.{counts, tally_text};
    ghost use Rattle.load_tally.specs.Steps.{IsWithin, IsOneMore};

    /// The counts of no replies.
    pub(crate) fn new() -> Tally
        ensures { result ≡ counts [] }
    {
        Tally {
            queries: 0,
            vectors: 0,
            yes: 0,
            no: 0,
            wide: 0,
            sum: 0,
        }
    }

    /// Counts one more line, whose reply is nothing where it isn't a query.
    pub(crate) fn count(&mut self, answer: &Option<Reply>)
        requires few { self.old.queries + 1 < 2 ^ 64 }
        requires within { IsWithin self.old }
        ensures counted { IsOneMore self.old self.new answer.now }
        ensures within { IsWithin self.new }
    {
        self.queries += 1;
        match answer {
            Some(Reply::Vector(vector)) => {
                self.vectors += 1;
                self.sum = with_entries(self.sum, vector.entries());
            }
            Some(Reply::Yes) => self.yes += 1,
            Some(Reply::No) => self.no += 1,
            Some(Reply::Wide) => self.wide += 1,
            Some(Reply::Nothing) | None => {}
        }
    }

    /// `queries Q vectors V yes Y no N wide W sum S`.
    pub fn text(&self, alloc: Global) -> Result<String, AllocError>
        ensures { IfOk result (λ text. string_bytes text ≡ tally_text self.now) }
    {
        self.to_string(alloc)
    }
}

impl fmt::Display for Tally {
    ghost use Rattle.std.specs.Prelude.{Some};
    ghost use Rattle.load_tally.specs.Tallies.{tally_text};

    ghost output = { λ tally. Some (tally_text tally) };

    fn fmt<W: fmt::Write>(&self, f: &mut fmt::Formatter<W>) -> fmt::Result {
        write!(f, "queries {} vectors {}", self.queries, self.vectors)?;
        write!(f, " yes {} no {}", self.yes, self.no)?;
        write!(f, " wide {} sum {}", self.wide, self.sum)
    }
}
