//! The calculator of a session.

ghost use Rattle.std.specs.Prelude.{◌≡◌, length, IfOk};
ghost use Rattle.nil_word.specs.Queries.{IsShapedQuery};
ghost use Rattle.group_eval.specs.Queries.{answered};
ghost use Rattle.query_replies.specs.Replies.{reply_of};

use super::replies::{reply_of, reply_to};
use group_eval::{Reply, Workspace, answer};
use hall_table::Checked;
use nil_pres::Presentation;
use nil_word::Query;
use session_io::Replier;
use std::alloc::{AllocError, Global};
use std::marker::Model;

/// A presentation with a table of level 1 that multiplies in it, and room for evaluation. Contracts
/// see the presentation and the table.
#[derive(Drop)]
pub struct Calculator {
    checked: Checked,
    ws: Workspace,
}

impl Model for Calculator {
    ghost use Rattle.std.specs.Prelude.{◌≡◌};
    ghost use Rattle.hall_table.specs.Multiplies.{Paired};
    ghost use Rattle.group_eval.specs.Space.{IsSpaceOf};

    ghost Value = { Paired };

    ghost view = { λ c. c.checked };

    ghost invariant = { λ c. IsSpaceOf c.ws c.checked × (c.checked.table.level ≡ 1) };
}

impl Replier for Calculator {
    ghost use Rattle.query_replies.specs.Replies.{reply};
    ghost use Rattle.query_replies.specs.LongLines.{reply-held};
    ghost use Rattle.session_io.specs.Recalling.{RecallsNothing};

    ghost reply = { λ c. reply c };

    ghost recalls = { λ _. RecallsNothing };

    fn reply_to(&mut self, alloc: Global, line: &[u8]) -> Result<String, AllocError> {
        reply_to(alloc, self, line)
    }

    ghost settled = { reply-held };

    ghost widens = { λ _ _ _ nothing. nothing };
}

impl Calculator {
    /// The calculator of a table of level 1.
    pub fn of(alloc: Global, checked: Checked) -> Result<Calculator, AllocError>
        requires level { checked.table.level ≡ 1 }
        ensures { IfOk result (λ c. c ≡ checked) }
    {
        let ws = Workspace::reserve(alloc, &checked)?;
        Ok(Calculator { checked, ws })
    }

    /// The presentation.
    pub fn pres(&self) -> &Presentation
        ensures { result.now ≡ self.now.pres }
    {
        self.checked.pres()
    }

    /// The reply to a query.
    pub fn answer(&mut self, alloc: Global, query: &Query) -> Result<Reply, AllocError>
        requires shaped { IsShapedQuery (length self.old.pres.names) query.now }
        ensures reply { IfOk result (λ reply. reply ≡ answered self.old.table query.now) }
        ensures same { self.new ≡ self.old }
    {
        answer(alloc, &mut self.ws, &self.checked, query)
    }
    /// The reply to a line, or nothing where it isn't a query.
    pub fn reply_of(&mut self, alloc: Global, line: &[u8]) -> Result<Option<Reply>, AllocError>
        ensures reply { IfOk result (λ reply. reply ≡ reply_of self.old line.now) }
        ensures same { self.new ≡ self.old }
    {
        reply_of(alloc, self, line)
    }
}
