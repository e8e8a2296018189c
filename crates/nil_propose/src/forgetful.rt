//! A proposer that runs out of memory by itself.

ghost use Rattle.std.specs.Prelude.{◌≡◌, ◌≤◌};

use super::listed::Listed;
use super::proposer::Proposer;
use hall_table::{Memory, Table};
use nil_pres::Presentation;
use std::alloc::{AllocError, Global};
use std::marker::Model;

/// Answers want of memory at each call whose number, from 1, is a multiple of `every`, and else as
/// the proposer that it holds. The number of calls stops at its type's end; from there on each call
/// answers want of memory.
#[derive(Drop)]
pub struct Forgetful {
    inner: Listed,
    every: u64,
    calls: u64,
}

impl Model for Forgetful {
    ghost use Rattle.std.specs.Prelude.{◌≤◌};
    ghost use Rattle.nil_propose.specs.Listing.{Forgetting};

    ghost Value = { Forgetting };

    ghost view = { λ s. record { inner = s.inner; every = s.every; calls = s.calls } };

    ghost invariant = { λ s. 1 ≤ s.every };
}

impl Proposer for Forgetful {
    ghost use Rattle.std.specs.Prelude.{◌≡◌, ◌≤◌, ℕ, length, IfOk, IsErr, IsTrue};
    ghost use Rattle.nil_pres.specs.Presented.{Presented};
    ghost use Rattle.nil_propose.specs.Listing.{first_offer, forgets, next};

    ghost gives = { λ s _ level. first_offer s.inner.offers level };

    ghost named = { λ s. s.inner.label };

    fn propose(
        &mut self,
        alloc: Global,
        pres: &Presentation,
        level: u32,
    ) -> Result<Option<Table>, Memory>
        requires least { 1 ≤ level }
        requires most { level ≤ length pres.now.names }
        ensures given { IfOk result (λ table. table ≡ first_offer self.old.inner.offers level) }
        ensures same { (p : Presented) (l : ℕ)
            → first_offer self.new.inner.offers l ≡ first_offer self.old.inner.offers l }
        ensures same_label { self.new.inner.label ≡ self.old.inner.label }
        ensures forgets { IsTrue (forgets self.old) → IsErr result }
        ensures calls { self.new.calls ≡ next self.old.calls }
        ensures every { self.new.every ≡ self.old.every }
    {
        self.calls = self.calls.saturating_add(1);
        if self.calls == u64::MAX || self.calls % self.every == 0 {
            return Err(AllocError);
        }
        self.inner.propose(alloc, pres, level)
    }

    fn label(&self) -> u32 {
        self.inner.label()
    }
}

impl Forgetful {
    /// A proposer that forgets at every so many calls.
    pub fn new(inner: Listed, every: u64) -> Forgetful
        requires { 1 ≤ every }
        ensures { result ≡ record { inner = inner; every = every; calls = 0 } }
    {
        Forgetful {
            inner,
            every,
            calls: 0,
        }
    }
}
