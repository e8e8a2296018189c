//! The collector of a presentation.

ghost use Rattle.std.specs.Prelude.{◌≡◌};

use super::replies::reply_to;
use nil_pres::Presentation;
use session_io::Replier;
use std::alloc::{AllocError, Global};
use std::marker::Model;

/// What replies to query lines over a presentation by collecting their words. Contracts see the
/// presentation.
#[derive(Drop)]
pub struct Collector {
    pres: Presentation,
}

impl Model for Collector {
    ghost use Rattle.nil_pres.specs.Presented.{Presented};

    ghost Value = { Presented };

    ghost view = { λ c. c.pres };
}

impl Replier for Collector {
    ghost use Rattle.collect_text.specs.Replies.{reply};
    ghost use Rattle.collect_text.specs.LongLines.{reply-held};
    ghost use Rattle.session_io.specs.Recalling.{RecallsNothing};

    ghost reply = { λ p. reply p };

    ghost recalls = { λ _. RecallsNothing };

    fn reply_to(&mut self, alloc: Global, line: &[u8]) -> Result<String, AllocError> {
        reply_to(alloc, &self.pres, line)
    }

    ghost settled = { reply-held };

    ghost widens = { λ _ _ _ nothing. nothing };
}

impl Collector {
    ghost use Rattle.nil_pres.specs.Presented.{IsPresented};

    /// The collector of a presentation, consistent or not.
    pub fn of(pres: Presentation) -> Collector
        ensures pres { result ≡ pres }
        ensures lawful { IsPresented result }
    {
        // Each presentation's count tells that it is lawful.
        let _count = pres.count();
        Collector { pres }
    }
}
