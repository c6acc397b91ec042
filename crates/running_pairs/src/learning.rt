//! A monoid and a fold learned by the steps that fail.
use crate::actions::Actions;
use crate::failing::{Failing, lightest_failing};
use crate::folds::Fold;
use crate::letters::Letters;
use crate::numbers::{NONE, at};
use crate::outcomes::Outcomes;
use crate::splitting::{most_telling, reduced, split, with_letter};
use quotient_search::{Halt, Work};
use std::alloc::Allocator;

/// The first corner of a fold, the largest one, the largest top, and the longest step.
pub const CORNER: usize = 2;

const MOST_CORNER: usize = 8;

const MOST_TOP: usize = 24;

pub const MOST_STEP: usize = 12;

/// How many of the last steps are looked at, and at how many of them each of two heaps has to fail.
const TURNS: usize = 12;

const FEWEST_TURNS: usize = 5;

/// A guess: a monoid, a fold, the outcomes, and the lightest step at which they fail.
#[derive(Drop)]
pub struct Guess<A: Allocator> {
    pub actions: Actions<A>,
    pub fold: Fold,
    pub outcomes: Outcomes<A>,
    pub failing: Failing,
}

/// How far a guess is learned: in how many rounds, and to how many elements and places.
#[derive(Clone, Copy)]
pub struct Bounds {
    pub rounds: usize,
    pub states: usize,
}

impl<A: Allocator + Copy> Guess<A> {
    /// Of a monoid and a fold.
    pub fn new(
        alloc: A,
        letters: &Letters<A>,
        actions: Actions<A>,
        fold: Fold,
        work: &mut Work,
    ) -> Result<Guess<A>, Halt> {
        let outcomes = Outcomes::new(alloc, letters, &actions, fold, work)?;
        let failing = lightest_failing(alloc, letters, &actions, &outcomes, work)?;
        Ok(Guess {
            actions,
            fold,
            outcomes,
            failing,
        })
    }

    /// Whether no step fails.
    pub fn fits(&self) -> bool {
        self.failing.weight == NONE
    }

    /// The guess with fewer elements, where it fails no earlier, and else this one.
    fn settled(self, alloc: A, letters: &Letters<A>, work: &mut Work) -> Result<Guess<A>, Halt> {
        let fewer = reduced(alloc, letters, &self.actions, &self.outcomes, work)?;
        if fewer.count() >= self.actions.count() {
            return Ok(self);
        }
        let other = Guess::new(alloc, letters, fewer, self.fold, work)?;
        if other.failing.weight >= self.failing.weight {
            Ok(other)
        } else {
            Ok(self)
        }
    }

    /// The fold that tells the counts of a step in one of the pair's heaps apart.
    fn grown(&self, is_falling: bool) -> Fold {
        let mut fold = self.fold;
        let down = at(&self.outcomes.downs, self.failing.place).saturating_add(usize::from(
            is_falling,
        ));
        let up = at(&self.outcomes.ups, self.failing.place).saturating_add(usize::from(
            !is_falling,
        ));
        let is_inside = down >= fold.down.saturating_add(fold.step)
            && up >= fold.up.saturating_add(fold.step);
        let is_below = down > fold.down_top;
        if is_inside {
            fold.down = fold.down.saturating_add(1);
            fold.up = fold.up.saturating_add(1);
        }
        if is_inside || is_below {
            fold.down_top = fold.down_top.saturating_add(1);
        }
        if is_inside || !is_below {
            fold.up_top = fold.up_top.saturating_add(1);
        }
        fold
    }

    /// The next fold: a larger one, or one with a longer step if the corner is too large, or none if that
    /// has no room.
    fn next_fold(&self, is_falling: bool, states: usize) -> Option<Fold> {
        let fold = self.grown(is_falling);
        if fold.down_top > MOST_TOP || fold.up_top > MOST_TOP {
            return None;
        }
        if fold.down <= MOST_CORNER {
            return Some(fold);
        }
        let longer = fold.stretched(CORNER);
        let count = longer.places().saturating_mul(self.actions.count());
        if longer.step > MOST_STEP || count > states {
            return None;
        }
        Some(longer)
    }

    /// The monoid that tells the two positions of the step that fails apart, if some letter does.
    fn finer(
        &self,
        alloc: A,
        letters: &mut Letters<A>,
        work: &mut Work,
    ) -> Result<Option<Actions<A>>, Halt> {
        let heap = self.failing.heap;
        let word = letters.generators.word(heap);
        let own = if word.len() == 1 { at(word, 0) } else { NONE };
        if own != NONE && letters.heap(own) == heap {
            let found = most_telling(letters, &self.actions, self.failing, own);
            if found.letter == NONE {
                return Ok(None);
            }
            return split(alloc, letters, &self.actions, found, work).map(Some);
        }
        with_letter(alloc, letters, &self.actions, heap, work).map(Some)
    }

    /// Whether the step that fails is one in a heap of the pair.
    fn fails_at(&self, letters: &Letters<A>, letter: usize) -> bool {
        letter != NONE && letters.heap(letter) == self.failing.heap
    }

    /// The next guess, with a larger fold or a finer monoid, and whether there is one within bounds:
    /// else it is this one.
    fn next(
        self,
        alloc: A,
        letters: &mut Letters<A>,
        states: usize,
        work: &mut Work,
    ) -> Result<(Guess<A>, bool), Halt> {
        let is_falling = self.fails_at(letters, letters.falling);
        if is_falling || self.fails_at(letters, letters.rising) {
            let Some(fold) = self.next_fold(is_falling, states) else {
                return Ok((self, false));
            };
            let Guess { actions, .. } = self;
            let next = Guess::new(alloc, letters, actions, fold, work)?;
            return Ok((next, true));
        }
        let Some(finer) = self.finer(alloc, letters, work)? else {
            return Ok((self, false));
        };
        let is_wider = finer.letters() > self.actions.letters();
        if !is_wider && finer.count().saturating_mul(self.outcomes.places) > states {
            return Ok((self, false));
        }
        let next = Guess::new(alloc, letters, finer, self.fold, work)?;
        Ok((next, true))
    }
}

/// The two heaps at which the last steps fail by turns, if there are two: these may run against each other.
pub fn taking_turns(turns: &[usize]) -> Option<(usize, usize)> {
    let from = turns.len().checked_sub(TURNS)?;
    let one = at(turns, from);
    let mut other = one;
    let mut count = 0usize;
    for place in from..turns.len() {
        let heap = at(turns, place);
        if heap == one {
            count = count.saturating_add(1);
        } else if other == one {
            other = heap;
        } else if heap != other {
            return None;
        }
    }
    if count < FEWEST_TURNS || TURNS.saturating_sub(count) < FEWEST_TURNS {
        return None;
    }
    Some((one.min(other), one.max(other)))
}

/// Notes a heap at which a step fails. Answers whether steps fail by turns at two heaps outside the pair.
fn note_turn<A: Allocator>(
    letters: &Letters<A>,
    heap: usize,
    turns: &mut Vec<usize, A>,
) -> Result<bool, Halt> {
    turns.push(heap)?;
    let Some((one, other)) = taking_turns(turns) else {
        return Ok(false);
    };
    Ok(!letters.has_running(one) && !letters.has_running(other))
}

/// The guess that is learned from a first one, as far as its bounds let it come, and whether it came
/// to its end: no step fails, or the rounds are over. It ends early if steps fail by turns at two heaps
/// outside the pair. The heaps at which steps fail are noted.
pub fn learned<A: Allocator + Copy>(
    alloc: A,
    letters: &mut Letters<A>,
    first: Guess<A>,
    bounds: Bounds,
    turns: &mut Vec<usize, A>,
    work: &mut Work,
) -> Result<(Guess<A>, bool), Halt> {
    let mut guess = first;
    let mut before = 0usize;
    for _ in 0..bounds.rounds {
        if guess.failing.weight > before {
            guess = guess.settled(alloc, letters, work)?;
        }
        before = guess.failing.weight;
        if guess.fits() {
            break;
        }
        if note_turn(letters, guess.failing.heap, turns)? {
            return Ok((guess, false));
        }
        let (next, is_new) = guess.next(alloc, letters, bounds.states, work)?;
        guess = next;
        if !is_new {
            return Ok((guess, false));
        }
    }
    Ok((guess, true))
}
