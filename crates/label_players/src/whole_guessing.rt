//! Guesses of what tells two positions of a whole game apart. Nothing is proved of them: each is tried.
use crate::value::WholeValue;
use allocation::{Memory, SmallAllocator};
use dominance_text::DominanceText;
use positions::{LARGEST_HEAP, Position};
use std::alloc::Allocator;

/// The most heaps of weight 1 in a guess.
const MOST_WAITS: u128 = 60;

/// So many heaps of one size, and so many of weight 1.
#[derive(Clone, Copy)]
pub(crate) struct Guess {
    heap: u64,
    count: u64,
    waits: u64,
}

/// A heap that turns the parity, and one of weight 1 that never rules; 0 for one that isn't found.
#[derive(Clone, Copy)]
pub(crate) struct Tools {
    turning: u64,
    waiting: u64,
}

/// Number `i` of the list, and 0 past its end.
fn entry(list: &[u16], i: usize) -> u128 {
    list.get(i).copied().unwrap_or(0) as u128
}

/// The first heap of this weight that never rules, odd if that is asked for; 0 if there is none.
fn first_of<A: Allocator>(text: &DominanceText<A>, weight: u128, odd: bool) -> u64 {
    for i in 0..text.odd.len() {
        let fits = entry(&text.weights, i) == weight && entry(&text.leads, i) == 0;
        if fits && (!odd || text.odd[i] == 1) {
            return i as u64 + 1;
        }
    }
    0
}

/// The heaps of weight 0 and 1 of which guesses are made.
pub(crate) fn tools_of<A: Allocator>(text: &DominanceText<A>) -> Tools {
    Tools {
        turning: first_of(text, 0, true),
        waiting: first_of(text, 1, false),
    }
}

/// The heap at place `i` of the lists, from start on, as many periods later; `None` if it is too large.
fn heap_at<A: Allocator>(text: &DominanceText<A>, i: usize, periods: u128) -> Option<u64> {
    let later = periods.checked_mul(text.period as u128)?;
    let size = later.checked_add(i as u128)?.checked_add(1)?;
    if size > LARGEST_HEAP as u128 {
        return None;
    }
    Some(size as u64)
}

/// Of the heaps at place `i`, as many periods later, the heaviest of at most this weight, and heaps of weight
/// 1 that make up for the rest.
fn lightened<A: Allocator>(text: &DominanceText<A>, i: usize, weight: u128) -> Option<Guess> {
    let past = weight.checked_sub(entry(&text.weights, i))?;
    let rise = text.rise as u128;
    if rise == 0 || past % rise > MOST_WAITS {
        return None;
    }
    Some(Guess {
        heap: heap_at(text, i, past / rise)?,
        count: 1,
        waits: (past % rise) as u64,
    })
}

/// Of the heaps at place `i`, as many periods later, the first with a lead of at least this, and heaps of
/// weight 1 that wear it down.
fn led<A: Allocator>(text: &DominanceText<A>, i: usize, lead: u128) -> Option<Guess> {
    let least = entry(&text.leads, i);
    let rise = text.rise as u128;
    if rise == 0 || least == 0 {
        return None;
    }
    let periods = lead.saturating_sub(least).checked_add(rise - 1)? / rise;
    let waits = periods
        .checked_mul(rise)?
        .checked_add(least)?
        .saturating_sub(lead);
    if waits > MOST_WAITS {
        return None;
    }
    Some(Guess {
        heap: heap_at(text, i, periods)?,
        count: 1,
        waits: waits as u64,
    })
}

/// Of the heaps at place `i`, as many periods later, two equal ones that no lead so large rules.
fn calming<A: Allocator>(text: &DominanceText<A>, i: usize, lead: u128) -> Option<Guess> {
    let rise = text.rise as u128;
    if rise == 0 {
        return None;
    }
    let half = lead / 2 + 1;
    let periods = half
        .saturating_sub(entry(&text.weights, i))
        .checked_add(rise - 1)?
        / rise;
    Some(Guess {
        heap: heap_at(text, i, periods)?,
        count: 2,
        waits: 0,
    })
}

/// Guesses of what tells two positions of these triples apart.
pub(crate) fn guesses<A: Allocator, B: Allocator>(
    alloc: B,
    text: &DominanceText<A>,
    x: WholeValue,
    y: WholeValue,
) -> Result<Vec<Guess, B>, Memory> {
    let (lead, weight) = (x.lead.max(y.lead), x.weight.max(y.weight));
    let mut all = Vec::new(alloc);
    all.push(Guess {
        heap: 0,
        count: 0,
        waits: 0,
    })?;
    for i in (text.start as usize).saturating_sub(1)..text.odd.len() {
        if let Some(guess) = lightened(text, i, lead.saturating_sub(1)) {
            all.push(guess)?;
        }
        if let Some(guess) = led(text, i, weight) {
            all.push(guess)?;
        }
        if let Some(guess) = calming(text, i, lead) {
            all.push(guess)?;
        }
    }
    Ok(all)
}

/// Adds so many heaps of this size, unless it is none that a position has.
fn add<B: SmallAllocator + Copy>(
    position: &mut Position<B>,
    heap: u64,
    count: u64,
) -> Result<(), Memory> {
    if heap == 0 || heap > LARGEST_HEAP {
        return Ok(());
    }
    for _ in 0..count {
        position.push(heap)?;
    }
    Ok(())
}

/// The position of a guess, with so many more heaps of weight 1, and so many that turn the parity.
pub(crate) fn position_of<B: SmallAllocator + Copy>(
    alloc: B,
    tools: Tools,
    guess: Guess,
    more: u64,
    turns: u64,
) -> Result<Position<B>, Memory> {
    let mut position = Position::new(alloc);
    add(&mut position, guess.heap, guess.count)?;
    add(
        &mut position,
        tools.waiting,
        guess.waits.saturating_add(more),
    )?;
    add(&mut position, tools.turning, turns)?;
    Ok(position)
}
