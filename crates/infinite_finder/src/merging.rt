//! States that may be one, as far as outcomes are known.
use crate::outcomes::UNKNOWN;
use crate::states::{States, ranks};
use quotient_search::{Halt, Work};
use running_pairs::{at, put};
use std::alloc::Allocator;

/// What a try has changed.
#[derive(Drop)]
struct Changes<A: Allocator> {
    /// The states that were put under others.
    states: Vec<usize, A>,
    /// The outcomes that were noted: states and places, one after another.
    outcomes: Vec<usize, A>,
    /// The pairs of states that have to be one, one after another.
    waiting: Vec<usize, A>,
}

/// States on the way to become one.
#[derive(Drop)]
struct Merging<A: Allocator> {
    /// For each state one that it is one with, or itself.
    parents: Vec<usize, A>,
    ranks: Vec<usize, A>,
    changes: Changes<A>,
}

impl<A: Allocator> Merging<A> {
    /// The state that stands for a state.
    fn root(&self, state: usize) -> usize {
        let mut root = state;
        for _ in 0..self.parents.len() {
            let parent = at(&self.parents, root);
            if parent == root {
                break;
            }
            root = parent;
        }
        root
    }

    fn is_root(&self, state: usize) -> bool {
        at(&self.parents, state) == state
    }

    /// Notes the outcomes of one state at another one. Answers whether they agree.
    fn note(&mut self, states: &mut States<A>, from: usize, to: usize) -> Result<bool, Halt> {
        for place in 0..states.places {
            let outcome = states.outcome(from, place);
            if outcome == UNKNOWN {
                continue;
            }
            let other = states.outcome(to, place);
            if other == UNKNOWN {
                self.changes.outcomes.push(to)?;
                self.changes.outcomes.push(place)?;
                states.set(to, place, outcome);
            } else if other != outcome {
                return Ok(false);
            }
        }
        Ok(true)
    }

    /// Makes two states one. Answers whether their outcomes agree.
    fn unite(&mut self, states: &mut States<A>, one: usize, other: usize) -> Result<bool, Halt> {
        let (one, other) = (self.root(one), self.root(other));
        if one == other {
            return Ok(true);
        }
        let is_first = at(&self.ranks, one) <= at(&self.ranks, other);
        let (to, from) = if is_first { (one, other) } else { (other, one) };
        put(&mut self.parents, from, to);
        self.changes.states.push(from)?;
        for letter in 0..states.letters {
            self.changes.waiting.push(states.step(to, letter))?;
            self.changes.waiting.push(states.step(from, letter))?;
        }
        self.note(states, from, to)
    }

    /// Makes two states one, and all that have to be then. Answers whether the outcomes agree.
    fn unite_all(
        &mut self,
        states: &mut States<A>,
        one: usize,
        other: usize,
        work: &mut Work,
    ) -> Result<bool, Halt> {
        if !self.unite(states, one, other)? {
            return Ok(false);
        }
        for _ in 0..u64::MAX {
            work.spend(states.places.saturating_add(states.letters))?;
            let Some(last) = self.changes.waiting.pop() else {
                return Ok(true);
            };
            let Some(first) = self.changes.waiting.pop() else {
                return Ok(true);
            };
            if !self.unite(states, first, last)? {
                return Ok(false);
            }
        }
        Ok(false)
    }

    /// Keeps what a try has changed.
    fn keep(&mut self) {
        self.changes.states.clear();
        self.changes.outcomes.clear();
        self.changes.waiting.clear();
    }

    /// Takes back what a try has changed.
    fn take_back(&mut self, states: &mut States<A>) {
        self.changes.waiting.clear();
        for _ in 0..self.changes.outcomes.len() {
            self.forget_outcome(states);
        }
        for _ in 0..self.changes.states.len() {
            if let Some(state) = self.changes.states.pop() {
                put(&mut self.parents, state, state);
            }
        }
    }

    /// Takes back the last outcome that was noted.
    fn forget_outcome(&mut self, states: &mut States<A>) {
        let Some(place) = self.changes.outcomes.pop() else {
            return;
        };
        if let Some(state) = self.changes.outcomes.pop() {
            states.set(state, place, UNKNOWN);
        }
    }

    /// Makes a state one with the first of some roots that it may be one with. Answers whether there
    /// is one.
    fn find_room(
        &mut self,
        states: &mut States<A>,
        roots: &[usize],
        state: usize,
        work: &mut Work,
    ) -> Result<bool, Halt> {
        for root in roots.iter() {
            work.spend(1)?;
            if !self.is_root(*root) {
                continue;
            }
            if self.unite_all(states, *root, state, work)? {
                self.keep();
                return Ok(true);
            }
            self.take_back(states);
        }
        Ok(false)
    }

    /// Merges all states, the lighter ones first.
    fn merge_all(&mut self, alloc: A, states: &mut States<A>, work: &mut Work) -> Result<(), Halt>
    where
        A: Copy,
    {
        let mut roots: Vec<usize, A> = Vec::new(alloc);
        for rank in 0..states.order.len() {
            let state = at(&states.order, rank);
            if self.is_root(state) && !self.find_room(states, &roots, state, work)? {
                roots.push(state)?;
            }
        }
        Ok(())
    }
}

/// Whether all outcomes of classes are known.
fn are_known<A: Allocator>(states: &States<A>, parents: &[usize]) -> bool {
    for state in 0..states.count {
        if at(parents, state) != state {
            continue;
        }
        for place in 0..states.places {
            if states.outcome(state, place) == UNKNOWN {
                return false;
            }
        }
    }
    true
}

/// For each state one that stands for all that are one with it. States of one class are one, and where
/// outcomes aren't known, those that may be. The outcomes of those that stand for others are noted at
/// them.
pub fn merged<A: Allocator + Copy>(
    alloc: A,
    states: &mut States<A>,
    classes: Vec<usize, A>,
    work: &mut Work,
) -> Result<Vec<usize, A>, Halt> {
    if are_known(states, &classes) {
        return Ok(classes);
    }
    let mut merging = Merging {
        parents: classes,
        ranks: ranks(alloc, states)?,
        changes: Changes {
            states: Vec::new(alloc),
            outcomes: Vec::new(alloc),
            waiting: Vec::new(alloc),
        },
    };
    merging.merge_all(alloc, states, work)?;
    let mut roots: Vec<usize, A> = Vec::new(alloc);
    for state in 0..states.count {
        roots.push(merging.root(state))?;
    }
    Ok(roots)
}
