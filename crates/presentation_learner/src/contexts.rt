//! Contexts with which rounds begin.
use crate::heap_words::{HeapWord, ONE, exponent, length, lengthened, with_exponent};
use crate::table::WordTable;
use quotient_search::Halt;
use running_pairs::{at, rest};
use std::alloc::Allocator;

/// How many powers of the last generator there are, and how many of it beside others.
const POWERS: u8 = 7;

const FEW_POWERS: u8 = 3;

/// How many of the contexts before are looked at beside powers.
const MOST_BEFORE: usize = 40;

const MOST_BESIDE: usize = 60;

/// How many contexts are drawn, first and beside generators that run.
const DRAWN: usize = 120;

const DRAWN_FAR: usize = 1000;

/// How far powers of a generator that runs go beside at most two letters, and beside more.
const FAR: u8 = 44;

const NEARER: u8 = 30;

/// Numbers that look as if they were drawn, always the same.
#[derive(Clone, Copy)]
struct Draws {
    state: u64,
}

impl Draws {
    /// The next number below a bound.
    fn below(&mut self, bound: usize) -> usize {
        self.state = self
            .state
            .wrapping_mul(6_364_136_223_846_793_005)
            .wrapping_add(1_442_695_040_888_963_407);
        rest((self.state / 0x2_0000_0000) as usize, bound)
    }

    /// The next exponent below a bound.
    fn exponent_below(&mut self, bound: u8) -> u8 {
        u8::try_from(self.below(bound as usize)).unwrap_or(0)
    }
}

/// Takes up a word beside so many powers of a letter.
fn add_powers<A: Allocator + Copy>(
    contexts: &mut WordTable<A>,
    word: &HeapWord,
    letter: usize,
    most: u8,
) -> Result<(), Halt> {
    let count = exponent(word, letter);
    for more in 0..most.saturating_add(1) {
        contexts.add(&with_exponent(word, letter, count.saturating_add(more)))?;
    }
    Ok(())
}

/// A word of few letters, that is drawn.
fn drawn_word(draws: &mut Draws, count: usize) -> HeapWord {
    let last = count.saturating_sub(1);
    let mut word = with_exponent(&ONE, last, draws.exponent_below(4));
    for _ in 0..draws.below(5) {
        word = lengthened(&word, draws.below(count));
    }
    word
}

/// Contexts for the first `count` generators, from those before the last one came.
pub fn first_contexts<A: Allocator + Copy>(
    alloc: A,
    before: &[HeapWord],
    count: usize,
) -> Result<WordTable<A>, Halt> {
    let last = count.saturating_sub(1);
    let mut contexts = WordTable::new(alloc)?;
    contexts.add(&ONE)?;
    for word in before.iter() {
        contexts.add(word)?;
    }
    add_powers(&mut contexts, &ONE, last, POWERS)?;
    for letter in 0..last {
        add_powers(&mut contexts, &lengthened(&ONE, letter), last, 2)?;
    }
    for word in before.iter().take(MOST_BEFORE) {
        add_powers(&mut contexts, word, last, FEW_POWERS)?;
    }
    let mut draws = Draws {
        state: 12345u64.wrapping_add(count as u64),
    };
    for _ in 0..DRAWN {
        contexts.add(&drawn_word(&mut draws, count))?;
    }
    Ok(contexts)
}

/// Takes up a word beside powers of each generator that runs.
fn add_far<A: Allocator + Copy>(
    contexts: &mut WordTable<A>,
    word: &HeapWord,
    running: &[usize],
) -> Result<(), Halt> {
    let most = if length(word) <= 2 { FAR } else { NEARER };
    for letter in running.iter() {
        add_powers(contexts, &with_exponent(word, *letter, 0), *letter, most)?;
    }
    Ok(())
}

/// A bound of exponents, that is drawn.
fn drawn_bound(draws: &mut Draws) -> u8 {
    match draws.below(3) {
        0 => 5,
        1 => 13,
        _ => 25,
    }
}

/// A word beside powers of up to three generators that run, all drawn.
fn drawn_far(draws: &mut Draws, before: &[HeapWord], running: &[usize]) -> HeapWord {
    let place = draws.below(before.len().saturating_mul(2));
    let mut word = before.get(place).copied().unwrap_or(ONE);
    for _ in 0..draws.below(3).saturating_add(1) {
        let letter = at(running, draws.below(running.len()));
        let bound = drawn_bound(draws);
        word = with_exponent(&word, letter, draws.exponent_below(bound));
    }
    word
}

/// Contexts beside generators that run, from those before.
pub fn far_contexts<A: Allocator + Copy>(
    alloc: A,
    before: &[HeapWord],
    count: usize,
    running: &[usize],
) -> Result<WordTable<A>, Halt> {
    let mut contexts = WordTable::new(alloc)?;
    contexts.add(&ONE)?;
    for word in before.iter() {
        contexts.add(word)?;
    }
    add_far(&mut contexts, &ONE, running)?;
    for letter in 0..count {
        add_far(&mut contexts, &lengthened(&ONE, letter), running)?;
    }
    for word in before.iter().take(MOST_BESIDE) {
        add_far(&mut contexts, word, running)?;
    }
    let mut draws = Draws { state: 777 };
    for _ in 0..DRAWN_FAR {
        contexts.add(&drawn_far(&mut draws, before, running))?;
    }
    Ok(contexts)
}
