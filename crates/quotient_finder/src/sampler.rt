//! The proposer that groups sampled positions by their outcomes.
ghost use Rattle.std.specs.Prelude.{◌≡◌, []};

use crate::{History, Proposer};
use allocation::Memory;
use answers::Refusal;
use guesses::{Drafts, sampled};
use octal_code::Code;
use std::alloc::Global;

/// Drafts what a small sample of positions suggests.
#[derive(Drop)]
pub struct Sampler {
    alloc: Global,
    heaps: usize,
    order: usize,
    drafts: Option<Drafts>,
    has_sampled: bool,
    history: History,
}

impl Sampler {
    /// A sampler for the heaps 1 to `heaps`, and drafts of at most `order` elements.
    pub fn new(alloc: Global, heaps: usize, order: usize) -> Sampler
        ensures { ⟦<Sampler as Proposer>⟧.history result ≡ [] }
    {
        Sampler {
            alloc,
            heaps,
            order,
            drafts: None,
            has_sampled: false,
            history: History::new(),
        }
    }

    /// A draft of the sample, if one is left.
    fn left(&mut self, code: &Code) -> Result<Option<Vec<u8>>, Memory>
        ensures { self.new.history ≡ self.old.history }
    {
        if !self.has_sampled {
            self.has_sampled = true;
            if let Some(guess) = sampled(self.alloc, code, self.heaps, self.order)? {
                self.drafts = Some(Drafts::new(self.alloc, guess)?);
            }
        }
        match &mut self.drafts {
            Some(drafts) => drafts.next(code, self.order),
            None => Ok(None),
        }
    }
}

impl Proposer for Sampler {
    ghost history = { λ s. s.history.events };

    fn propose(&mut self, code: &Code) -> Result<Option<Vec<u8>>, Memory> {
        let reply = self.left(code);
        self.history.asked(&reply);
        reply
    }

    fn learn(&mut self, refusal: &Refusal) -> Result<(), Memory> {
        self.history.told(refusal);
        Ok(())
    }
}
