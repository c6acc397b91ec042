//! The search at one attempt.
use crate::contexts::contexts_of;
use crate::learning::{LONGEST_WORD, WordExtent, learn};
use crate::letters::{LetterHeaps, letters_of, words_of};
use crate::portion::{Letterings, long_cycles};
use crate::reach::reaches_of;
use crate::sources::ClaimValues;
use crate::telling::Contexts;
use crate::values::Value;
use presentation_learner::{FoundLines, drafted, shortened};
use quotient_search::{Halt, Work};
use std::alloc::Allocator;

/// The work that one attempt may take.
const ATTEMPT_WORK: u64 = 200_000_000_000;

/// What is found of a claim, at an attempt, with its letters.
fn found_with<A: Allocator + Copy>(
    alloc: A,
    source: &ClaimValues<A>,
    letters: LetterHeaps<A>,
    known: Vec<Value, A>,
    attempt: u32,
    work: &mut Work,
) -> Result<FoundLines<A>, Halt> {
    let values = &source.values;
    let reaches = reaches_of(values, &letters.values, attempt);
    let mut contexts = Contexts {
        values,
        known,
        all: contexts_of(alloc, values, &letters.values, reaches.contexts, work)?,
    };
    let extent = WordExtent {
        window: reaches.words,
        length: LONGEST_WORD,
    };
    let learned = learn(alloc, &mut contexts, &letters.values, extent, work)?;
    let words = words_of(alloc, &mut contexts, &learned, &source.heaps, work)?;
    let long = long_cycles(alloc, values, &learned.rules, &letters.values)?;
    let portion = Letterings {
        values,
        letters: &letters.values,
        cycles: &long,
        rules: &learned.rules,
    }
    .portion(alloc, work)?;
    let (cycles, portion) = shortened(alloc, &long, portion, work)?;
    let mut rules = Vec::new(alloc);
    rules.extend_from_slice(&learned.rules)?;
    let LetterHeaps { heaps, .. } = letters;
    Ok(FoundLines {
        code: source.code,
        period: source.period,
        letters: heaps,
        words,
        rules,
        cycles,
        portion,
    })
}

/// The text that is found of a claim, at an attempt.
pub fn text_of<A: Allocator + Copy>(
    alloc: A,
    source: &ClaimValues<A>,
    attempt: u32,
) -> Result<Vec<u8, A>, Halt> {
    let mut work = Work::new(ATTEMPT_WORK);
    let (letters, known) = letters_of(alloc, source, attempt, &mut work)?;
    let found = found_with(alloc, source, letters, known, attempt, &mut work)?;
    drafted(alloc, &found)
}
