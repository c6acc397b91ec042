//! The letters: heaps of which the products are all values.
use crate::contexts::contexts_of;
use crate::learning::{LONGEST_WORD, Learned, WordExtent, learn};
use crate::reach::reaches_of;
use crate::sources::ClaimValues;
use crate::telling::Contexts;
use crate::values::{Value, ValueTable};
use normal_forms::Exponents;
use presentation_learner::ONE;
use presentations::LETTERS;
use quotient_search::{Halt, Work};
use std::alloc::Allocator;

/// Of how many letters at most a heap's word is looked for where something is counted.
const LONGEST: u32 = 8;

/// Of how many letters at most a heap's word is looked for, at an attempt.
fn longest<A: Allocator>(values: &ValueTable<A>, attempt: u32) -> u32 {
    if values.is_counting() {
        LONGEST.saturating_mul(attempt.saturating_add(1))
    } else {
        LONGEST_WORD
    }
}

/// Letters: their heaps, and these heaps' values.
#[derive(Drop)]
pub struct LetterHeaps<A: Allocator> {
    pub heaps: Vec<usize, A>,
    pub values: Vec<Value, A>,
}

/// The different values of the heaps.
fn different<A: Allocator + Copy>(
    alloc: A,
    heaps: &[Option<Value>],
) -> Result<LetterHeaps<A>, Halt> {
    let mut found = LetterHeaps::new(alloc);
    for (place, heap) in heaps.iter().enumerate() {
        if let Some(value) = heap {
            if *value != Value::ONE && !found.values.contains(value) {
                found.add(place.saturating_add(1), *value)?;
            }
        }
    }
    Ok(found)
}

impl<A: Allocator> LetterHeaps<A> {
    /// No letter yet.
    fn new(alloc: A) -> LetterHeaps<A>
    where
        A: Copy,
    {
        LetterHeaps {
            heaps: Vec::new(alloc),
            values: Vec::new(alloc),
        }
    }

    /// Takes up a letter.
    fn add(&mut self, heap: usize, value: Value) -> Result<(), Halt> {
        self.heaps.push(heap)?;
        self.values.push(value).map_err(Halt::from)
    }
}

/// The letters without one of them.
fn without<A: Allocator + Copy>(
    alloc: A,
    letters: &LetterHeaps<A>,
    left_out: usize,
) -> Result<LetterHeaps<A>, Halt> {
    let mut others = LetterHeaps::new(alloc);
    for (letter, heap) in letters.heaps.iter().enumerate() {
        if letter != left_out {
            let value = letters.values.get(letter).copied().unwrap_or(Value::ONE);
            others.add(*heap, value)?;
        }
    }
    Ok(others)
}

/// The heaps that are no products of smaller letters.
fn new_letters<A: Allocator + Copy>(
    alloc: A,
    contexts: &mut Contexts<'_, A>,
    all: &LetterHeaps<A>,
    extent: WordExtent,
    work: &mut Work,
) -> Result<LetterHeaps<A>, Halt> {
    let mut letters = LetterHeaps::new(alloc);
    let mut products = learn(alloc, contexts, &letters.values, extent, work)?;
    for (heap, value) in all.heaps.iter().zip(all.values.iter()) {
        if products.find(contexts, *value, work)?.is_some() {
            continue;
        }
        if letters.heaps.len() >= LETTERS {
            return Err(Halt::TooLarge);
        }
        letters.add(*heap, *value)?;
        products = learn(alloc, contexts, &letters.values, extent, work)?;
    }
    Ok(letters)
}

/// The letters that are needed: from the last one on those are left out that the others make.
fn needed<A: Allocator + Copy>(
    alloc: A,
    contexts: &mut Contexts<'_, A>,
    new: LetterHeaps<A>,
    extent: WordExtent,
    work: &mut Work,
) -> Result<LetterHeaps<A>, Halt> {
    let mut letters = new;
    for letter in (0..letters.heaps.len()).rev() {
        let value = letters.values.get(letter).copied().unwrap_or(Value::ONE);
        let others = without(alloc, &letters, letter)?;
        let products = learn(alloc, contexts, &others.values, extent, work)?;
        if products.find(contexts, value, work)?.is_some() {
            letters = others;
        }
    }
    Ok(letters)
}

/// The letters, and the contexts that tell their words apart.
pub fn letters_of<A: Allocator + Copy>(
    alloc: A,
    source: &ClaimValues<A>,
    attempt: u32,
    work: &mut Work,
) -> Result<(LetterHeaps<A>, Vec<Value, A>), Halt> {
    let all = different(alloc, &source.heaps)?;
    let reaches = reaches_of(&source.values, &all.values, 0);
    let mut contexts = Contexts {
        values: &source.values,
        known: Vec::new(alloc),
        all: contexts_of(alloc, &source.values, &all.values, reaches.contexts, work)?,
    };
    let extent = WordExtent {
        window: reaches.words,
        length: longest(&source.values, attempt),
    };
    let new = new_letters(alloc, &mut contexts, &all, extent, work)?;
    let letters = needed(alloc, &mut contexts, new, extent, work)?;
    let Contexts { known, .. } = contexts;
    Ok((letters, known))
}

/// The heaps' words, none of those that are left out. Fails if a heap's value is no word's that was looked at.
pub fn words_of<A: Allocator + Copy>(
    alloc: A,
    contexts: &mut Contexts<'_, A>,
    learned: &Learned<A>,
    heaps: &[Option<Value>],
    work: &mut Work,
) -> Result<Vec<Option<Exponents>, A>, Halt> {
    let mut words: Vec<Option<Exponents>, A> = Vec::new(alloc);
    for heap in heaps.iter() {
        let Some(value) = heap else {
            words.push(None)?;
            continue;
        };
        let Some(item) = learned.find(contexts, *value, work)? else {
            return Err(Halt::Repairs);
        };
        words.push(Some(learned.words.get(item).copied().unwrap_or(ONE)))?;
    }
    Ok(words)
}
