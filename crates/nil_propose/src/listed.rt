//! A proposer that holds its tables.

ghost use Rattle.std.specs.Prelude.{◌≡◌, ◌==◌, find, option_map};

use super::offer::Offer;
use super::proposer::Proposer;
use hall_table::{Memory, Table};
use nil_pres::Presentation;
use std::alloc::Global;
use std::marker::Model;

/// Gives the first offer of the level that is asked for, whatever the presentation.
#[derive(Drop)]
pub struct Listed {
    label: u32,
    offers: Vec<Offer>,
}

impl Model for Listed {
    ghost use Rattle.nil_propose.specs.Listing.{Listing};

    ghost Value = { Listing };

    ghost view = { λ s. record { label = s.label; offers = s.offers.items } };
}

impl Proposer for Listed {
    ghost use Rattle.nil_propose.specs.Listing.{first_offer};

    ghost gives = { λ s _ level. first_offer s.offers level };

    ghost named = { λ s. s.label };

    fn propose(
        &mut self,
        alloc: Global,
        _pres: &Presentation,
        level: u32,
    ) -> Result<Option<Table>, Memory> {
        match self.offer(level) {
            Some(offer) => Ok(Some(offer.table.copy(alloc)?)),
            None => Ok(None),
        }
    }

    fn label(&self) -> u32 {
        self.label
    }
}

impl Listed {
    /// A proposer with these offers.
    pub fn new(label: u32, offers: Vec<Offer>) -> Listed
        ensures { result ≡ record { label = label; offers = offers.items } }
    {
        Listed { label, offers }
    }

    /// The first offer of a level.
    fn offer(&self, level: u32) -> Option<&Offer>
        ensures { option_map (λ offer. offer.now) result
            ≡ find (λ offer. offer.level == level) self.now.offers }
    {
        self.offers.iter().find(|offer| offer.level == level)
    }
}
