//! What was said between a search and a proposer.
ghost use Rattle.std.specs.Prelude.{◌≡◌, [], ◌∷◌};
ghost use Rattle.std.specs.Borrow.{ftrue};
ghost use Rattle.answers.specs.ByteVerdicts.{refused};
ghost use Rattle.quotient_finder.specs.Histories.{Events, coded_events};
ghost use Rattle.quotient_finder.specs.Histories.Event.{Gave, Silent, Wanting, Told};
ghost use Rattle.quotient_finder.specs.Turns.{given};

use allocation::Memory;
use checker::Refusal;
use std::marker::{Model, PhantomData};

/// All that was said between searches and a proposer, the latest first, which only clauses read.
#[derive(Drop)]
pub struct History {
    marker: PhantomData<u8>,
    pub ghost events: { Events } by { coded_events },
}

impl Model for History {
    ghost also_owns = { λ _. ftrue };
}

impl History {
    /// Nothing was said yet.
    pub fn new() -> History
        ensures { result.events ≡ [] }
    {
        History {
            marker: PhantomData,
        }
    }

    /// It was asked, and this came of it.
    pub fn asked(&mut self, reply: &Result<Option<Vec<u8>>, Memory>)
        ensures { self.new.events ≡ given (λ draft. draft.items) reply.now ∷ self.old.events }
    {
        match reply {
            Ok(Some(draft)) => self.gave(draft),
            Ok(None) => self.silent(),
            Err(_) => self.wanting(),
        }
    }

    /// It was asked, and gave this draft.
    fn gave(&mut self, _draft: &[u8])
        ensures { self.new.events ≡ Gave _draft.now ∷ self.old.events }
    {}

    /// It was asked, and gave none.
    fn silent(&mut self)
        ensures { self.new.events ≡ Silent ∷ self.old.events }
    {}

    /// It was asked, and memory was wanting.
    fn wanting(&mut self)
        ensures { self.new.events ≡ Wanting ∷ self.old.events }
    {}

    /// It was told this refusal.
    pub fn told(&mut self, _refusal: &Refusal)
        ensures { self.new.events ≡ Told (refused _refusal.now) ∷ self.old.events }
    {}
}
