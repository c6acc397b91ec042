//! Monoids made finer by a letter's counts, and coarser where nothing tells elements apart.
use crate::actions::{Actions, actions_behind};
use crate::failing::Failing;
use crate::letters::Letters;
use crate::numbers::{NONE, at, put};
use crate::outcomes::Outcomes;
use quotient_search::{Halt, Partition, Work};
use std::alloc::Allocator;

/// How many outcomes have room in a key.
const KEY_PLACES: usize = 64;

/// After how many counts of a letter the next ones are as those before.
const PERIOD: usize = 2;

/// Counts of a letter that are told apart: those below the lead, and the others modulo the period.
#[derive(Clone, Copy)]
pub struct Telling {
    pub letter: usize,
    pub lead: usize,
}

impl Telling {
    fn span(self) -> usize {
        self.lead.saturating_add(PERIOD)
    }

    /// The class of the count after a count's class.
    fn raised(self, class: usize) -> usize {
        let next = class.wrapping_add(1);
        if next < self.span() { next } else { self.lead }
    }
}

/// The counts of the letter that differ most between the two words of a step that fails, of the step's
/// own letter if they differ.
pub fn most_telling<A: Allocator>(
    letters: &Letters<A>,
    actions: &Actions<A>,
    failing: Failing,
    own: usize,
) -> Telling {
    let target = actions.behind(failing.element, letters.generators.word(failing.heap));
    let mut best = Telling {
        letter: NONE,
        lead: 0,
    };
    let mut most = 0usize;
    for letter in 0..letters.count() {
        let more = usize::from(letter == own);
        let count = actions
            .occurrences(failing.element, letter)
            .wrapping_add(more);
        let other = actions.occurrences(target, letter);
        let difference = count.abs_diff(other);
        if difference > most || letter == own && difference != 0 {
            most = if letter == own { NONE } else { difference };
            best = Telling {
                letter,
                lead: count.min(other).wrapping_add(1),
            };
        }
    }
    best
}

/// The monoid beside which a letter is counted.
pub fn split<A: Allocator + Copy>(
    alloc: A,
    letters: &Letters<A>,
    actions: &Actions<A>,
    telling: Telling,
    work: &mut Work,
) -> Result<Actions<A>, Halt> {
    let span = telling.span();
    let states = actions.count().saturating_mul(span);
    work.spend(states.saturating_mul(letters.count()))?;
    let mut steps: Vec<usize, A> = Vec::new(alloc);
    for element in 0..actions.count() {
        for class in 0..span {
            for letter in 0..letters.count() {
                let counted = if letter == telling.letter {
                    telling.raised(class)
                } else {
                    class
                };
                let next = actions.step(element, letter).wrapping_mul(span);
                steps.push(next.wrapping_add(counted))?;
            }
        }
    }
    actions_behind(alloc, letters, &steps, states, 0, work)
}

/// The monoid with one letter more, which leads to where a heap's word does.
pub fn with_letter<A: Allocator + Copy>(
    alloc: A,
    letters: &mut Letters<A>,
    actions: &Actions<A>,
    heap: usize,
    work: &mut Work,
) -> Result<Actions<A>, Halt> {
    let mut steps: Vec<usize, A> = Vec::new(alloc);
    for element in 0..actions.count() {
        for letter in 0..actions.letters() {
            steps.push(actions.step(element, letter))?;
        }
        steps.push(actions.behind(element, letters.generators.word(heap)))?;
    }
    letters.generators.promote(heap)?;
    actions_behind(alloc, letters, &steps, actions.count(), 0, work)
}

/// The outcomes of an element at some places, in one number.
fn key<A: Allocator>(outcomes: &Outcomes<A>, element: usize, from: usize) -> u64 {
    let mut key = 0u64;
    for place in from..from.saturating_add(KEY_PLACES).min(outcomes.places) {
        key = key
            .wrapping_mul(2)
            .wrapping_add(u64::from(outcomes.get(element, place)));
    }
    key
}

/// Writes a key of an element.
fn put_key<A: Allocator>(partition: &mut Partition<A>, element: usize, key: u64) {
    if element < partition.keys.len() {
        partition.keys[element] = key;
    }
}

/// Parts the elements by their outcomes.
fn part_by_outcomes<A: Allocator>(
    elements: usize,
    outcomes: &Outcomes<A>,
    partition: &mut Partition<A>,
    work: &mut Work,
) -> Result<(), Halt> {
    for chunk in 0..outcomes.places / KEY_PLACES + 1 {
        for element in 0..elements {
            let found = key(outcomes, element, chunk.wrapping_mul(KEY_PLACES));
            put_key(partition, element, found);
        }
        work.spend(elements.saturating_mul(KEY_PLACES))?;
        partition.split(work)?;
    }
    Ok(())
}

/// Parts the elements by the classes to which each letter leads.
fn part_by_letters<A: Allocator>(
    actions: &Actions<A>,
    partition: &mut Partition<A>,
    work: &mut Work,
) -> Result<(), Halt> {
    for letter in 0..actions.letters() {
        for element in 0..actions.count() {
            let class = at(&partition.classes, actions.step(element, letter));
            put_key(partition, element, class as u64);
        }
        partition.split(work)?;
    }
    Ok(())
}

/// The monoid in which elements that nothing tells apart are one.
pub fn reduced<A: Allocator + Copy>(
    alloc: A,
    letters: &Letters<A>,
    actions: &Actions<A>,
    outcomes: &Outcomes<A>,
    work: &mut Work,
) -> Result<Actions<A>, Halt> {
    let mut partition = Partition::new(alloc, actions.count())?;
    part_by_outcomes(actions.count(), outcomes, &mut partition, work)?;
    for _ in 0..actions.count().saturating_add(1) {
        let before = partition.count;
        part_by_letters(actions, &mut partition, work)?;
        if partition.count == before {
            break;
        }
    }
    let mut firsts: Vec<usize, A> = vec![in alloc; NONE; partition.count]?;
    for element in 0..actions.count() {
        let class = at(&partition.classes, element);
        if at(&firsts, class) == NONE {
            put(&mut firsts, class, element);
        }
    }
    let mut steps: Vec<usize, A> = Vec::new(alloc);
    for first in firsts.iter() {
        for letter in 0..actions.letters() {
            steps.push(at(&partition.classes, actions.step(*first, letter)))?;
        }
    }
    let first = at(&partition.classes, 0);
    actions_behind(alloc, letters, &steps, partition.count, first, work)
}
