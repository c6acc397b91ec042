//! Guesses of what tells two positions apart. Nothing is proved of them: each is tried.
use crate::forms::times;
use crate::portion::in_portion;
use crate::wide::{WideWord, widened};
use allocation::{Memory, SmallAllocator};
use normal_forms::{Exponents, with_letter};
use positions::{LARGEST_HEAP, Position};
use presentations::LETTERS;
use presented_tables::Presented;
use std::alloc::Allocator;

/// The most words that are tried.
const MOST_TRIED: usize = 16384;

/// Whether just one of the two words is in the portion beside a third one.
fn tells<A: Allocator>(said: &Presented<A>, x: &WideWord, y: &WideWord, word: &Exponents) -> bool {
    let third = widened(word);
    in_portion(said, &times(said, x, &third)) != in_portion(said, &times(said, y, &third))
}

/// The number of the last letter that occurs, or 0.
fn last_letter(word: &Exponents) -> usize {
    let mut last = 0;
    for i in 0..LETTERS {
        if word[i] > 0 {
            last = i;
        }
    }
    last
}

/// Adds the standard words that are the word with one letter more, its last one or one behind it.
fn add_longer<A: Allocator, B: Allocator>(
    said: &Presented<A>,
    words: &mut Vec<Exponents, B>,
    word: &Exponents,
) -> Result<(), Memory> {
    for i in last_letter(word)..said.letters.len().min(LETTERS) {
        if let Some(longer) = with_letter(word, i) {
            if said.basis.is_standard(&longer) {
                words.push(longer)?;
            }
        }
    }
    Ok(())
}

/// A word beside which just one of the two is in the portion: the first one of those that are tried, shorter ones first.
pub(crate) fn telling_word<A: Allocator, B: Allocator>(
    alloc: B,
    said: &Presented<A>,
    x: &WideWord,
    y: &WideWord,
) -> Result<Option<Exponents>, Memory> {
    let mut words = Vec::new(alloc);
    words.push([0u16; LETTERS])?;
    for k in 0..MOST_TRIED {
        let Some(word) = words.get(k).copied() else {
            return Ok(None);
        };
        if tells(said, x, y, &word) {
            return Ok(Some(word));
        }
        if words.len() < MOST_TRIED {
            add_longer(said, &mut words, &word)?;
        }
    }
    Ok(None)
}

/// Adds so many heaps of this size, unless it is none that a position has.
fn add<B: SmallAllocator + Copy>(
    position: &mut Position<B>,
    heap: u16,
    count: u16,
) -> Result<(), Memory> {
    if heap == 0 || heap as u64 > LARGEST_HEAP {
        return Ok(());
    }
    for _ in 0..count {
        position.push(heap as u64)?;
    }
    Ok(())
}

/// The position of the heaps of a word's letters.
pub(crate) fn position_of<A: Allocator, B: SmallAllocator + Copy>(
    alloc: B,
    said: &Presented<A>,
    word: &Exponents,
) -> Result<Position<B>, Memory> {
    let mut position = Position::new(alloc);
    for i in 0..said.letters.len().min(LETTERS) {
        add(&mut position, said.letters[i], word[i])?;
    }
    Ok(position)
}
