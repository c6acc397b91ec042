//! The states of a shape: elements with combinations of counts.
use crate::fitting::spot_of;
use crate::outcomes::{Outcomes, UNKNOWN, View};
use crate::shapes::Shape;
use quotient_search::{Halt, Work};
use running_pairs::{at, byte, heap_weight, places_by_size, put, put_byte, rest, share};
use std::alloc::Allocator;

/// States, where each letter leads from each of them, and their outcomes at each place.
#[derive(Drop)]
pub struct States<A: Allocator> {
    pub count: usize,
    pub letters: usize,
    /// How many places there are.
    pub places: usize,
    /// Where each letter leads, the states one after another.
    pub next: Vec<usize, A>,
    /// The outcomes, the states one after another.
    pub outcomes: Vec<u8, A>,
    /// The states, the lighter ones first.
    pub order: Vec<usize, A>,
}

impl<A: Allocator> States<A> {
    /// Where a letter leads.
    #[inline]
    pub fn step(&self, state: usize, letter: usize) -> usize {
        at(
            &self.next,
            state.wrapping_mul(self.letters).wrapping_add(letter),
        )
    }

    /// The outcome of a state at a place.
    #[inline]
    pub fn outcome(&self, state: usize, place: usize) -> u8 {
        byte(
            &self.outcomes,
            state.wrapping_mul(self.places).wrapping_add(place),
        )
    }

    /// Sets the outcome of a state at a place.
    #[inline]
    pub fn set(&mut self, state: usize, place: usize, outcome: u8) {
        let to = state.wrapping_mul(self.places).wrapping_add(place);
        put_byte(&mut self.outcomes, to, outcome);
    }
}

/// The combination to which one more heap leads.
fn raised<A: Allocator>(shape: &Shape<A>, combination: usize, i: usize) -> usize {
    let mut factor = 1usize;
    for before in 0..i {
        factor = factor.wrapping_mul(shape.span(before));
    }
    let count = rest(share(combination, factor), shape.span(i));
    let next = shape.folded(i, count.wrapping_add(1));
    combination
        .wrapping_add(next.wrapping_mul(factor))
        .wrapping_sub(count.wrapping_mul(factor))
}

/// What a combination weighs.
fn combination_weight<A: Allocator>(
    view: &View<'_, A>,
    shape: &Shape<A>,
    combination: usize,
) -> usize {
    let mut left = combination;
    let mut sum = 0usize;
    for i in 0..shape.rank() {
        let count = rest(left, shape.span(i));
        left = share(left, shape.span(i));
        let heap = at(&view.generators.heaps, at(view.counted, i));
        sum = sum.saturating_add(count.saturating_mul(heap_weight(heap)));
    }
    sum
}

/// Where a letter leads from an element, by its number, and a combination.
fn target<A: Allocator + Copy>(
    view: &View<'_, A>,
    shape: &Shape<A>,
    number: usize,
    combination: usize,
    letter: usize,
) -> usize {
    let combinations = shape.combinations();
    match view.place_of(letter) {
        Some(i) => number
            .wrapping_mul(combinations)
            .wrapping_add(raised(shape, combination, i)),
        None => view
            .base
            .times(view.quotient, number, at(&view.generators.elements, letter))
            .wrapping_mul(combinations)
            .wrapping_add(combination),
    }
}

/// The states of a shape that fits, with the outcomes that are known.
pub fn states_of<A: Allocator + Copy>(
    view: &View<'_, A>,
    outcomes: &Outcomes<A>,
    shape: &Shape<A>,
    work: &mut Work,
) -> Result<States<A>, Halt> {
    let count = shape.combinations().saturating_mul(view.base.count());
    let places = shape.fold.places();
    let letters = view.generators.count();
    work.spend(count.saturating_mul(letters.saturating_add(places)))?;
    let mut states = States {
        count,
        letters,
        places,
        next: Vec::new(view.alloc),
        outcomes: vec![in view.alloc; UNKNOWN; count.saturating_mul(places)]?,
        order: Vec::new(view.alloc),
    };
    add_steps(view, shape, &mut states)?;
    note_outcomes(view, outcomes, shape, &mut states, work)?;
    Ok(states)
}

/// Adds the steps of all states, and their order.
fn add_steps<A: Allocator + Copy>(
    view: &View<'_, A>,
    shape: &Shape<A>,
    states: &mut States<A>,
) -> Result<(), Halt> {
    let combinations = shape.combinations();
    let mut weights: Vec<usize, A> = Vec::new(view.alloc);
    for state in 0..states.count {
        let number = share(state, combinations);
        let combination = rest(state, combinations);
        for letter in 0..states.letters {
            let to = target(view, shape, number, combination, letter);
            states.next.push(to)?;
        }
        let weight = combination_weight(view, shape, combination);
        weights.push(weight.saturating_add(at(&view.base.weights, number)))?;
    }
    states.order = places_by_size(view.alloc, &weights)?;
    Ok(())
}

/// Notes the outcomes that are known.
fn note_outcomes<A: Allocator + Copy>(
    view: &View<'_, A>,
    outcomes: &Outcomes<A>,
    shape: &Shape<A>,
    states: &mut States<A>,
    work: &mut Work,
) -> Result<(), Halt> {
    let combinations = shape.combinations();
    for counts in 0..view.layout.places.len() {
        work.spend(view.base.count())?;
        let spot = spot_of(view, shape, counts);
        let place = at(&view.layout.places, counts);
        for number in 0..view.base.count() {
            let outcome = outcomes.get(number, place);
            if outcome != UNKNOWN {
                let state = number
                    .wrapping_mul(combinations)
                    .wrapping_add(spot.combination);
                states.set(state, spot.place, outcome);
            }
        }
    }
    Ok(())
}

/// The place of each state in the order.
pub fn ranks<A: Allocator + Copy>(alloc: A, states: &States<A>) -> Result<Vec<usize, A>, Halt> {
    let mut ranks: Vec<usize, A> = vec![in alloc; 0usize; states.count]?;
    for (rank, state) in states.order.iter().enumerate() {
        put(&mut ranks, *state, rank);
    }
    Ok(ranks)
}
