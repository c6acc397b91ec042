//! Two heaps that run against each other, and what is learned of all beside them.
use crate::actions::{Actions, actions_behind};
use crate::beginning::{actions_of, letters_of};
use crate::boxes::{Score, score_of};
use crate::folds::Fold;
use crate::generators::{Generators, cycle_of};
use crate::learning::{Bounds, CORNER, Guess, MOST_STEP, learned, taking_turns};
use crate::letters::Letters;
use crate::numbers::{NONE, at, rest};
use octal_code::Code;
use quotient_search::{Halt, HeapQuotient, Work};
use std::alloc::Allocator;

/// How many pairs are looked for, each in tables that are right for heavier positions.
const MOST_PAIRS: usize = 8;

/// How many pairs more are tried that tables of the wrong quotient show less clearly.
const LAST_PAIRS: usize = 1;

/// How far the monoid of all letters is learned between two looks.
const FIRST_BOUNDS: Bounds = Bounds {
    rounds: 6,
    states: 6000,
};

/// In how many rounds a monoid is learned beside a pair, and to how many elements and places: so many,
/// and more of them for each element of the wrong quotient, up to a bound. They are twice as many if the
/// quotient lacks the last heap.
const PAIR_ROUNDS: usize = 200;

const FEWEST_STATES: usize = 10_000;

const STATES_EACH: usize = 620;

const MOST_STATES: usize = 410_000;

/// Up to how many letters, squared, times elements all pairs are looked at, and else those with the
/// last heap alone.
const MOST_SCORES: usize = 100_000;

/// Two heaps that run against each other: the letters, and a monoid of the others with outcomes at the
/// places of a fold.
#[derive(Drop)]
pub struct RunningPair<A: Allocator> {
    letters: Letters<A>,
    guess: Guess<A>,
}

impl<A: Allocator> RunningPair<A> {
    /// The letters' heaps, and the words of the others.
    pub fn generators(&self) -> &Generators<A> {
        &self.letters.generators
    }

    /// The two letters.
    pub fn letters(&self) -> (usize, usize) {
        (self.letters.falling, self.letters.rising)
    }

    /// The fold of their counts.
    pub fn fold(&self) -> Fold {
        self.guess.fold
    }

    /// How many elements there are.
    pub fn order(&self) -> usize {
        self.guess.actions.count()
    }

    /// Where each letter leads, the elements one after another: the pair's nowhere.
    pub fn steps(&self) -> &[usize] {
        self.guess.actions.steps()
    }

    /// The outcomes at each place, 1 where a position is P, the elements one after another.
    pub fn outcomes(&self) -> &[u8] {
        &self.guess.outcomes.bytes
    }
}

/// The pairs that a wrong quotient shows, one after another, each with what is learned beside it.
#[derive(Drop)]
pub struct RunningPairs<'a, A: Allocator> {
    alloc: A,
    code: &'a Code,
    quotient: &'a HeapQuotient<A>,
    last: usize,
    /// The letters of all heaps, and what is learned of them without a pair.
    letters: Letters<A>,
    actions: Actions<A>,
    /// How often tables were made, and whether nothing more is learned between two looks.
    looks: usize,
    is_over: bool,
    /// The pairs that were tried, and the one that is to be tried beside all heaps.
    tried: Vec<usize, A>,
    waiting: Option<Pair>,
    /// The pair that steps show which fail by turns.
    shown: Option<Pair>,
}

/// A pair of letters, by their heaps.
#[derive(Clone, Copy)]
struct Pair {
    falling: usize,
    rising: usize,
}

/// The least common multiple, if it isn't large.
fn common(one: usize, other: usize) -> usize {
    for i in 1..MOST_STEP + 1 {
        let multiple = one.wrapping_mul(i);
        if rest(multiple, other) == 0 {
            return multiple;
        }
    }
    NONE
}

impl<'a, A: Allocator + Copy> RunningPairs<'a, A> {
    /// Of a wrong quotient of a code's heaps up to the last one, or of one that lacks the last ones.
    pub fn new(
        alloc: A,
        code: &'a Code,
        quotient: &'a HeapQuotient<A>,
        last: usize,
        work: &mut Work,
    ) -> Result<RunningPairs<'a, A>, Halt> {
        let letters = letters_of(alloc, code, quotient, last, work)?;
        let actions = actions_of(alloc, quotient, &letters, work)?;
        Ok(RunningPairs {
            alloc,
            code,
            quotient,
            last,
            letters,
            actions,
            looks: 0,
            is_over: false,
            tried: Vec::new(alloc),
            waiting: None,
            shown: None,
        })
    }

    /// The first fold for two letters.
    fn first_fold(&self, letters: &Letters<A>) -> Result<Option<Fold>, Halt> {
        let mut step = CORNER;
        for letter in [letters.falling, letters.rising] {
            let element = at(&letters.generators.elements, letter);
            let found = cycle_of(self.alloc, self.quotient, element)?;
            step = common(step, found.period);
        }
        if step > MOST_STEP {
            return Ok(None);
        }
        Ok(Some(Fold::cornered(CORNER, step)))
    }

    /// How far a monoid is learned beside a pair. Where the quotient lacks the last heap, there is less to
    /// begin with, and more to learn.
    fn bounds(&self) -> Bounds {
        let more = self.quotient.order().saturating_mul(STATES_EACH);
        let states = more.saturating_add(FEWEST_STATES).min(MOST_STATES);
        let is_whole = self.quotient.heaps().len() >= self.last;
        Bounds {
            rounds: PAIR_ROUNDS,
            states: if is_whole {
                states
            } else {
                states.saturating_mul(2)
            },
        }
    }

    /// The letters, a pair among them: those of all heaps, or of those that are needed.
    fn letters_beside(
        &self,
        pair: Pair,
        has_all: bool,
        work: &mut Work,
    ) -> Result<Letters<A>, Halt> {
        let mut letters = letters_of(self.alloc, self.code, self.quotient, self.last, work)?;
        letters.falling = self.as_letter(&mut letters, pair.falling)?;
        letters.rising = self.as_letter(&mut letters, pair.rising)?;
        if !has_all {
            letters.keep_needed();
        }
        Ok(letters)
    }

    /// What is learned beside a pair, of all heaps or of those that are needed, if no step fails in the
    /// end.
    fn learn(
        &mut self,
        pair: Pair,
        has_all: bool,
        work: &mut Work,
    ) -> Result<Option<RunningPair<A>>, Halt> {
        let mut letters = self.letters_beside(pair, has_all, work)?;
        if letters.falling == NONE || letters.rising == NONE {
            return Ok(None);
        }
        let Some(fold) = self.first_fold(&letters)? else {
            return Ok(None);
        };
        let actions = actions_of(self.alloc, self.quotient, &letters, work)?;
        let first = Guess::new(self.alloc, &letters, actions, fold, work)?;
        let bounds = self.bounds();
        let mut turns: Vec<usize, A> = Vec::new(self.alloc);
        let (guess, _) = learned(self.alloc, &mut letters, first, bounds, &mut turns, work)?;
        if !guess.fits() {
            self.note_turns(&turns);
            return Ok(None);
        }
        Ok(Some(RunningPair { letters, guess }))
    }

    /// Takes note of two heaps at which steps fail by turns: the next pair that is tried.
    fn note_turns(&mut self, turns: &[usize]) {
        if let Some((falling, rising)) = taking_turns(turns) {
            let pair = Pair { falling, rising };
            if !self.was_tried(pair) {
                self.shown = Some(pair);
            }
        }
    }

    /// The letter of a heap, which becomes one if it is a word in the quotient.
    fn as_letter(&self, letters: &mut Letters<A>, heap: usize) -> Result<usize, Halt> {
        if letters.letter(heap) == NONE {
            letters
                .generators
                .promote_as(heap, self.quotient.heap(heap))?;
        }
        Ok(letters.letter(heap))
    }

    /// Whether a pair was tried.
    fn was_tried(&self, pair: Pair) -> bool {
        for i in 0..self.tried.len() / 2 {
            let place = i.wrapping_mul(2);
            if at(&self.tried, place) == pair.falling
                && at(&self.tried, place.wrapping_add(1)) == pair.rising
            {
                return true;
            }
        }
        false
    }

    /// The pair on each of whose counts outcomes depend most, among those that weren't tried. Outcomes may hardly
    /// change with both counts, where it is asked.
    fn best_pair(&mut self, is_strict: bool, work: &mut Work) -> Result<Option<Pair>, Halt> {
        let count = self.letters.count();
        let size = count
            .saturating_mul(count)
            .saturating_mul(self.actions.count());
        let last = self.letters.generators.last();
        let mut best: Option<Pair> = None;
        let mut most = Score {
            both: 1,
            down: 0,
            up: 0,
        };
        for rising in 0..count {
            if size > MOST_SCORES && self.letters.heap(rising) != last {
                continue;
            }
            for falling in 0..rising {
                let pair = Pair {
                    falling: self.letters.heap(falling),
                    rising: self.letters.heap(rising),
                };
                let letters = &mut self.letters;
                let score = score_of(self.alloc, letters, &self.actions, falling, rising, work)?;
                let is_right = score.depth() != 0 && (!is_strict || score.is_clear());
                if is_right && score.is_better(most) && !self.was_tried(pair) {
                    most = score;
                    best = Some(pair);
                }
            }
        }
        Ok(best)
    }

    /// Learns what all letters do, a little further.
    fn learn_further(&mut self, work: &mut Work) -> Result<(), Halt> {
        let steps = self.actions.steps();
        let order = self.actions.count();
        let actions = actions_behind(self.alloc, &self.letters, steps, order, 0, work)?;
        let first = Guess::new(self.alloc, &self.letters, actions, Fold::flat(), work)?;
        let letters = &mut self.letters;
        let mut turns: Vec<usize, A> = Vec::new(self.alloc);
        let (guess, has_room) = learned(
            self.alloc,
            letters,
            first,
            FIRST_BOUNDS,
            &mut turns,
            work,
        )?;
        self.is_over = !has_room || guess.fits();
        let Guess { actions, .. } = guess;
        self.actions = actions;
        Ok(())
    }

    /// Goes back to the wrong quotient.
    fn go_back(&mut self, work: &mut Work) -> Result<(), Halt> {
        self.letters = letters_of(self.alloc, self.code, self.quotient, self.last, work)?;
        self.actions = actions_of(self.alloc, self.quotient, &self.letters, work)?;
        Ok(())
    }

    /// The next pair: one that tables show, and in the end those that tables of the wrong
    /// quotient show best.
    fn next_pair(&mut self, work: &mut Work) -> Result<Option<Pair>, Halt> {
        for _ in self.looks..MOST_PAIRS {
            if self.looks != 0 {
                if self.is_over {
                    self.looks = MOST_PAIRS;
                    break;
                }
                self.learn_further(work)?;
            }
            self.looks = self.looks.saturating_add(1);
            let found = self.best_pair(true, work)?;
            if found.is_some() {
                return Ok(found);
            }
        }
        if self.looks > MOST_PAIRS + LAST_PAIRS {
            return Ok(None);
        }
        if self.looks == MOST_PAIRS {
            self.go_back(work)?;
        }
        self.looks = self.looks.saturating_add(1);
        self.best_pair(false, work)
    }

    /// The next pair with what is learned beside it, or nothing where there are no more.
    pub fn go_on(&mut self, work: &mut Work) -> Result<Option<RunningPair<A>>, Halt> {
        for _ in 0..(MOST_PAIRS + LAST_PAIRS) * 2 {
            if let Some(pair) = self.waiting.take() {
                let found = self.learn(pair, true, work)?;
                if found.is_some() {
                    return Ok(found);
                }
            }
            let next = match self.shown.take() {
                Some(pair) => Some(pair),
                None => self.next_pair(work)?,
            };
            let Some(pair) = next else {
                return Ok(None);
            };
            self.tried.push(pair.falling)?;
            self.tried.push(pair.rising)?;
            if let Some(found) = self.learn(pair, false, work)? {
                if found.letters.leave_out() {
                    self.waiting = Some(pair);
                }
                return Ok(Some(found));
            }
        }
        Ok(None)
    }
}
