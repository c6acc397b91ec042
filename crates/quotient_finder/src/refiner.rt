//! The proposer that guesses heap by heap.
ghost use Rattle.std.specs.Prelude.{◌≡◌, []};

use crate::{History, Proposer};
use allocation::Memory;
use answers::Refusal;
use guesses::{Drafts, Guess, Guesser, Reason};
use octal_code::Code;
use std::alloc::Global;

/// Drafts what is guessed of the heaps up to some size, for a whole game or for the part of just
/// these heaps. It guesses once: the guess would be the same again.
#[derive(Drop)]
pub struct Refiner {
    alloc: Global,
    order: usize,
    guesser: Guesser,
    is_part: bool,
    drafts: Option<Drafts>,
    has_guessed: bool,
    reason: Option<Reason>,
    history: History,
}

impl Refiner {
    /// A refiner that looks at the heaps 1 to `heaps`, and drafts whole games of at most `order`
    /// elements.
    pub fn new(alloc: Global, heaps: usize, order: usize) -> Refiner
        ensures { ⟦<Refiner as Proposer>⟧.history result ≡ [] }
    {
        Refiner {
            alloc,
            order,
            guesser: Guesser::new(alloc, heaps, order),
            is_part: false,
            drafts: None,
            has_guessed: false,
            reason: None,
            history: History::new(),
        }
    }

    /// A refiner that drafts the part of a game that has the heaps 1 to `last`, of at most `order`
    /// elements.
    pub fn of_part(alloc: Global, last: usize, order: usize) -> Refiner
        ensures { ⟦<Refiner as Proposer>⟧.history result ≡ [] }
    {
        Refiner {
            alloc,
            order,
            guesser: Guesser::of_part(alloc, last, order),
            is_part: true,
            drafts: None,
            has_guessed: false,
            reason: None,
            history: History::new(),
        }
    }

    /// Why its drafts came to nothing, once none is left.
    pub fn reason(&self) -> Reason {
        self.reason.unwrap_or(Reason::Refused)
    }

    /// Guesses, unless it did.
    fn guess(&mut self, code: &Code) -> Result<(), Memory>
        ensures { self.new.history ≡ self.old.history }
    {
        if !self.has_guessed {
            self.has_guessed = true;
            match self.guesser.guess(code)? {
                Ok(guess) => {
                    self.reason = flaw_of(&guess, self.is_part);
                    self.drafts = Some(drafts_of(self.alloc, guess, self.is_part)?);
                }
                Err(reason) => self.reason = Some(reason),
            }
        }
        Ok(())
    }

    /// A draft of the guess, if one is left.
    fn left(&mut self, code: &Code) -> Result<Option<Vec<u8>>, Memory>
        ensures { self.new.history ≡ self.old.history }
    {
        self.guess(code)?;
        match &mut self.drafts {
            Some(drafts) => drafts.next(code, self.order),
            None => Ok(None),
        }
    }
}

/// The reason that a guess itself gives for drafts that come to nothing, if it gives one.
fn flaw_of(guess: &Guess, is_part: bool) -> Option<Reason> {
    let (heaps, order) = (guess.heaps.len(), guess.order);
    if order < 2 {
        Some(Reason::OneElement)
    } else if !is_part && !guess.shown {
        Some(Reason::NoPeriod { heaps, order })
    } else {
        None
    }
}

/// The drafts of a guess, of a whole game or of a part.
fn drafts_of(alloc: Global, guess: Guess, is_part: bool) -> Result<Drafts, Memory> {
    if is_part {
        Drafts::of_part(alloc, guess)
    } else {
        Drafts::new(alloc, guess)
    }
}

impl Proposer for Refiner {
    ghost history = { λ s. s.history.events };

    fn propose(&mut self, code: &Code) -> Result<Option<Vec<u8>>, Memory> {
        let reply = self.left(code);
        self.history.asked(&reply);
        reply
    }

    fn learn(&mut self, refusal: &Refusal) -> Result<(), Memory> {
        self.history.told(refusal);
        // its first draft was the likeliest
        if self.reason.is_none() {
            self.reason = Some(match refusal {
                Refusal::Limit => Reason::Members,
                _ => Reason::Refused,
            });
        }
        Ok(())
    }
}
