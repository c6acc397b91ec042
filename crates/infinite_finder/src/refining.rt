//! States that nothing tells apart.
use crate::states::States;
use quotient_search::{Halt, Partition, Work};
use running_pairs::{NONE, at, put};
use std::alloc::Allocator;

/// How many outcomes have room in a key.
const KEY_PLACES: usize = 32;

/// The outcomes of a state at some places, in one number.
fn key<A: Allocator>(states: &States<A>, state: usize, from: usize) -> u64 {
    let mut key = 0u64;
    for place in from..from.saturating_add(KEY_PLACES).min(states.places) {
        key = key
            .wrapping_mul(4)
            .wrapping_add(u64::from(states.outcome(state, place)));
    }
    key
}

/// Writes a key of a state.
fn put_key<A: Allocator>(partition: &mut Partition<A>, state: usize, key: u64) {
    if state < partition.keys.len() {
        partition.keys[state] = key;
    }
}

/// Parts the states by their outcomes.
fn part_by_outcomes<A: Allocator>(
    states: &States<A>,
    partition: &mut Partition<A>,
    work: &mut Work,
) -> Result<(), Halt> {
    for chunk in 0..states.places / KEY_PLACES + 1 {
        for state in 0..states.count {
            let found = key(states, state, chunk.wrapping_mul(KEY_PLACES));
            put_key(partition, state, found);
        }
        work.spend(states.count.saturating_mul(KEY_PLACES))?;
        partition.split(work)?;
    }
    Ok(())
}

/// Parts the states by the classes to which each letter leads.
fn part_by_letters<A: Allocator>(
    states: &States<A>,
    partition: &mut Partition<A>,
    work: &mut Work,
) -> Result<(), Halt> {
    for letter in 0..states.letters {
        for state in 0..states.count {
            let class = at(&partition.classes, states.step(state, letter));
            put_key(partition, state, class as u64);
        }
        partition.split(work)?;
    }
    Ok(())
}

/// The first state, in their order, of the class of each state: classes are as large as they can be,
/// where outcomes that aren't known count as a third outcome.
pub fn refined<A: Allocator + Copy>(
    alloc: A,
    states: &States<A>,
    work: &mut Work,
) -> Result<Vec<usize, A>, Halt> {
    let mut partition = Partition::new(alloc, states.count)?;
    part_by_outcomes(states, &mut partition, work)?;
    for _ in 0..states.count.saturating_add(1) {
        let before = partition.count;
        part_by_letters(states, &mut partition, work)?;
        if partition.count == before {
            break;
        }
    }
    first_states(alloc, states, &partition)
}

/// The first state of the class of each state.
fn first_states<A: Allocator + Copy>(
    alloc: A,
    states: &States<A>,
    partition: &Partition<A>,
) -> Result<Vec<usize, A>, Halt> {
    let mut firsts: Vec<usize, A> = vec![in alloc; NONE; partition.count]?;
    for state in states.order.iter() {
        let class = at(&partition.classes, *state);
        if at(&firsts, class) == NONE {
            put(&mut firsts, class, *state);
        }
    }
    let mut found: Vec<usize, A> = Vec::new(alloc);
    for state in 0..states.count {
        found.push(at(&firsts, at(&partition.classes, state)))?;
    }
    Ok(found)
}
