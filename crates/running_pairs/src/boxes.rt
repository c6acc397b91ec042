//! Which two letters run against each other, as tables of outcomes show.
use crate::actions::{Actions, actions_behind};
use crate::folds::Fold;
use crate::letters::Letters;
use crate::outcomes::Outcomes;
use quotient_search::{Halt, Work};
use std::alloc::Allocator;

/// How many counts of a letter are in a table.
const SIDE: usize = 10;

/// From which counts on outcomes are compared, and how far apart.
const FIRST: usize = 2;

const APART: usize = 2;

/// How much more often outcomes change with each count alone than with both, where a pair is clear.
const CLEAR: usize = 8;

/// How often outcomes change with both counts, and with each of them alone.
#[derive(Clone, Copy)]
pub struct Score {
    pub both: usize,
    pub down: usize,
    pub up: usize,
}

impl Score {
    /// How much outcomes depend on each of the counts.
    pub fn depth(self) -> usize {
        self.down.min(self.up)
    }

    /// Whether they depend less on both, for how much they depend on each, or as little and more on each.
    pub fn is_better(self, other: Score) -> bool {
        let own = self.both.saturating_mul(other.depth());
        let others = other.both.saturating_mul(self.depth());
        own < others || own == others && self.depth() > other.depth()
    }

    /// Whether they hardly depend on both, if at all.
    pub fn is_clear(self) -> bool {
        self.both.saturating_mul(CLEAR) <= self.depth()
    }
}

/// Compares an element's outcomes.
fn add_element<A: Allocator>(outcomes: &Outcomes<A>, element: usize, score: &mut Score) {
    for down in FIRST..SIDE - APART {
        for up in FIRST..SIDE - APART {
            let own = outcomes.get(element, outcomes.place(down, up));
            let right = outcomes.get(element, outcomes.place(down + APART, up));
            let above = outcomes.get(element, outcomes.place(down, up + APART));
            let both = outcomes.get(element, outcomes.place(down + APART, up + APART));
            score.both = score.both.wrapping_add(usize::from(own != both));
            score.down = score.down.wrapping_add(usize::from(own != right));
            score.up = score.up.wrapping_add(usize::from(own != above));
        }
    }
}

/// How outcomes change with the counts of two letters, beside the elements that the others make.
pub fn score_of<A: Allocator + Copy>(
    alloc: A,
    letters: &mut Letters<A>,
    actions: &Actions<A>,
    falling: usize,
    rising: usize,
    work: &mut Work,
) -> Result<Score, Halt> {
    let before = (letters.falling, letters.rising);
    letters.falling = falling;
    letters.rising = rising;
    let base = actions_behind(alloc, letters, actions.steps(), actions.count(), 0, work)?;
    let fold = Fold::cornered(SIDE, 1);
    let outcomes = Outcomes::new(alloc, letters, &base, fold, work)?;
    letters.falling = before.0;
    letters.rising = before.1;
    let mut score = Score {
        both: 0,
        down: 0,
        up: 0,
    };
    for element in 0..base.count() {
        add_element(&outcomes, element, &mut score);
    }
    Ok(score)
}
