//! Cycles made as short as they can be.
use crate::words::{exponent, order, with_exponent};
use normal_forms::Exponents;
use presented_text::LetterCycle;
use quotient_search::{Halt, Work};
use std::alloc::Allocator;
use std::cmp::Ordering;

/// Whether a word is in a list in order.
fn has(list: &[Exponents], word: &Exponents) -> bool {
    let (mut from, mut to) = (0usize, list.len());
    for _ in 0..64 {
        let middle = from.midpoint(to);
        match list.get(middle) {
            Some(other) if from < to => match order(other, word) {
                Ordering::Equal => return true,
                Ordering::Less => from = middle.saturating_add(1),
                Ordering::Greater => to = middle,
            },
            _ => return false,
        }
    }
    false
}

/// The exponent so many further on, in a cycle.
fn moved(cycle: LetterCycle, count: u16, more: u16) -> u16 {
    let behind = count.saturating_sub(cycle.start).saturating_add(more);
    let left = if cycle.period == 0 {
        0
    } else {
        behind % cycle.period
    };
    cycle.start.saturating_add(left)
}

/// Whether the words in a cycle are listed with so many more of the letter, too.
fn repeats(list: &[Exponents], letter: usize, cycle: LetterCycle, more: u16) -> bool {
    for word in list.iter() {
        let count = exponent(word, letter);
        if count < cycle.start {
            continue;
        }
        let other = with_exponent(word, letter, moved(cycle, count, more));
        if !has(list, &other) {
            return false;
        }
    }
    true
}

/// Whether the words with one exponent are listed with another one, too.
fn are_with(list: &[Exponents], letter: usize, one: u16, other: u16) -> bool {
    for word in list.iter() {
        if exponent(word, letter) == one && !has(list, &with_exponent(word, letter, other)) {
            return false;
        }
    }
    true
}

/// What looks at a list cost.
fn look(list: &[Exponents], work: &mut Work) -> Result<(), Halt> {
    work.spend(list.len().saturating_mul(256))
}

/// The cycle with its least period.
fn with_least_period(
    list: &[Exponents],
    letter: usize,
    cycle: LetterCycle,
    work: &mut Work,
) -> Result<LetterCycle, Halt> {
    for period in 1..cycle.period {
        if cycle.period % period == 0 {
            look(list, work)?;
            if repeats(list, letter, cycle, period) {
                return Ok(LetterCycle {
                    start: cycle.start,
                    period,
                });
            }
        }
    }
    Ok(cycle)
}

/// The cycle with its least start.
fn with_least_start(
    list: &[Exponents],
    letter: usize,
    cycle: LetterCycle,
    work: &mut Work,
) -> Result<LetterCycle, Halt> {
    let mut start = cycle.start;
    for _ in 0..cycle.start {
        let before = start.saturating_sub(1);
        let last = before.saturating_add(cycle.period);
        look(list, work)?;
        if !are_with(list, letter, before, last) || !are_with(list, letter, last, before) {
            break;
        }
        start = before;
    }
    Ok(LetterCycle {
        start,
        period: cycle.period,
    })
}

/// The words that have fewer of a letter than so many.
fn below<A: Allocator + Copy>(
    alloc: A,
    list: &[Exponents],
    letter: usize,
    limit: u16,
) -> Result<Vec<Exponents, A>, Halt> {
    let mut found: Vec<Exponents, A> = Vec::new(alloc);
    for word in list.iter() {
        if exponent(word, letter) < limit {
            found.push(*word)?;
        }
    }
    Ok(found)
}

/// Least cycles, and the words of the portion that have fewer of each letter than where its first period ends.
pub fn shortened<A: Allocator + Copy>(
    alloc: A,
    cycles: &[LetterCycle],
    portion: Vec<Exponents, A>,
    work: &mut Work,
) -> Result<(Vec<LetterCycle, A>, Vec<Exponents, A>), Halt> {
    let mut least: Vec<LetterCycle, A> = Vec::new(alloc);
    let mut list = portion;
    for (letter, long) in cycles.iter().enumerate() {
        let shorter = with_least_period(&list, letter, *long, work)?;
        list = below(alloc, &list, letter, end_of(shorter))?;
        let cycle = with_least_start(&list, letter, shorter, work)?;
        list = below(alloc, &list, letter, end_of(cycle))?;
        least.push(cycle)?;
    }
    Ok((least, list))
}

/// Where the first period ends.
fn end_of(cycle: LetterCycle) -> u16 {
    cycle.start.saturating_add(cycle.period)
}
