//! The drafts of one guess, one after another.
use crate::candidates::{Repeat, candidates};
use crate::draft::draft;
use crate::guess::Guess;
use allocation::Memory;
use octal_code::Code;
use std::alloc::Global;

/// A guess, and the starts and periods that are still to be tried with it.
#[derive(Drop)]
pub struct Drafts {
    alloc: Global,
    guess: Guess,
    waiting: Vec<Repeat>,
}

impl Drafts {
    /// Nothing is tried yet.
    pub fn new(alloc: Global, guess: Guess) -> Result<Drafts, Memory> {
        let mut waiting = candidates(alloc, &guess)?;
        waiting.reverse();
        Ok(Drafts {
            alloc,
            guess,
            waiting,
        })
    }

    /// Nothing is tried yet but the guess's own heaps, without a period: a part of the game.
    pub fn of_part(alloc: Global, guess: Guess) -> Result<Drafts, Memory> {
        let mut waiting: Vec<Repeat> = Vec::new(alloc);
        waiting.push((guess.heaps.len().saturating_add(1), 0))?;
        Ok(Drafts {
            alloc,
            guess,
            waiting,
        })
    }

    /// The next draft of at most so many elements, if there is one. Each start and period is tried
    /// once.
    pub fn next(&mut self, code: &Code, most: usize) -> Result<Option<Vec<u8>>, Memory> {
        while let Some(repeat) = self.waiting.pop() {
            let draft = draft(self.alloc, code, &self.guess, repeat, most)?;
            if draft.is_some() {
                return Ok(draft);
            }
        }
        Ok(None)
    }
}
