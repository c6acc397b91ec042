//! The portion up to where outcomes surely repeat along each letter.
use crate::counts::small;
use crate::reach::{cycle_of, multiple};
use crate::values::{Value, ValueTable};
use normal_forms::{Exponents, Rule};
use presentation_learner::{ONE, exponent, is_reducible_at, last_letter, lengthened};
use presented_text::LetterCycle;
use quotient_search::{Halt, Work};
use std::alloc::Allocator;

/// The most standard words that are looked at.
const MOST_WORDS: usize = 2_000_000;

/// The largest number of a cycle.
const LARGEST: u16 = 4096;

/// The number, and not more than the largest one of a cycle.
fn cycle_number(number: u32) -> u16 {
    u16::try_from(number).unwrap_or(LARGEST).min(LARGEST)
}

/// A cycle that has each letter's least one in it.
fn cycle_along<A: Allocator>(
    values: &ValueTable<A>,
    rules: &[Rule],
    letter: usize,
    value: Value,
) -> LetterCycle {
    let (mut start, mut period) = cycle_of(values, value);
    for rule in rules.iter() {
        start = start.max(exponent(&rule.left, letter) as u32);
    }
    let fold = values.fold;
    let mut far = 0usize;
    if value.counts.apart() > 0 {
        period = multiple(period, small(fold.modulus));
        let corner = fold.down.saturating_add(fold.up);
        let tops = fold.down_top.saturating_add(fold.up_top);
        far = corner.saturating_add(tops).saturating_add(fold.step);
    }
    LetterCycle {
        start: cycle_number(start.saturating_add(small(far).saturating_mul(2))),
        period: cycle_number(period).max(1),
    }
}

/// Cycles that have all letters' least ones in them.
pub fn long_cycles<A: Allocator + Copy>(
    alloc: A,
    values: &ValueTable<A>,
    rules: &[Rule],
    letters: &[Value],
) -> Result<Vec<LetterCycle, A>, Halt> {
    let mut cycles: Vec<LetterCycle, A> = Vec::new(alloc);
    for (letter, value) in letters.iter().enumerate() {
        cycles.push(cycle_along(values, rules, letter, *value))?;
    }
    Ok(cycles)
}

/// Standard words, and their values.
#[derive(Drop)]
struct Listed<A: Allocator> {
    words: Vec<Exponents, A>,
    values: Vec<Value, A>,
}

/// What words are made of: the letters' values and cycles, and the relations.
#[derive(Drop)]
pub struct Letterings<'a, A: Allocator> {
    pub values: &'a ValueTable<A>,
    pub letters: &'a [Value],
    pub cycles: &'a [LetterCycle],
    pub rules: &'a [Rule],
}

impl<A: Allocator> Letterings<'_, A> {
    /// Whether a word has fewer of a letter than where its first period ends.
    fn is_below(&self, word: &Exponents, letter: usize) -> bool {
        match self.cycles.get(letter) {
            Some(cycle) => exponent(word, letter) < cycle.start.saturating_add(cycle.period),
            None => false,
        }
    }

    /// Lists what a standard word and a letter more are.
    fn lengthen(&self, listed: &mut Listed<A>, item: usize, work: &mut Work) -> Result<(), Halt> {
        let word = listed.words.get(item).copied().unwrap_or(ONE);
        let value = listed.values.get(item).copied().unwrap_or(Value::ONE);
        for letter in last_letter(&word)..self.letters.len() {
            let longer = lengthened(&word, letter);
            if !self.is_below(&longer, letter) {
                continue;
            }
            work.spend(self.rules.len().saturating_mul(4))?;
            if !is_reducible_at(self.rules, &longer, letter) {
                let by = self.letters.get(letter).copied().unwrap_or(Value::ONE);
                listed.words.push(longer)?;
                listed.values.push(self.values.times(value, by))?;
            }
        }
        Ok(())
    }

    /// The standard words that are P, of fewer letters than where the first periods end, in their order.
    pub fn portion(&self, alloc: A, work: &mut Work) -> Result<Vec<Exponents, A>, Halt>
    where
        A: Copy,
    {
        let mut listed = Listed {
            words: Vec::from_slice(alloc, &[ONE])?,
            values: Vec::from_slice(alloc, &[Value::ONE])?,
        };
        let mut portion: Vec<Exponents, A> = Vec::new(alloc);
        for item in 0..MOST_WORDS {
            let Some(value) = listed.values.get(item).copied() else {
                return Ok(portion);
            };
            if self.values.is_p(value) {
                portion.push(listed.words.get(item).copied().unwrap_or(ONE))?;
            }
            self.lengthen(&mut listed, item, work)?;
        }
        Err(Halt::TooLarge)
    }
}
