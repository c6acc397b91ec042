//! Words with numbers.
use crate::heap_words::{HeapWord, ONE, is_same};
use quotient_search::Halt;
use running_pairs::{NONE, put, rest};
use std::alloc::Allocator;

/// How many slots there are at first.
const FIRST_SLOTS: usize = 1024;

/// Different words, which have numbers from 0 on as they came, and slots in which these numbers are found.
#[derive(Drop)]
pub struct WordTable<A: Allocator> {
    alloc: A,
    pub words: Vec<HeapWord, A>,
    slots: Vec<usize, A>,
}

/// A number that is seldom the same for different words.
fn mixed(word: &HeapWord) -> usize {
    let mut sum = 0u64;
    for (generator, count) in word.iter().enumerate() {
        if *count > 0 {
            sum = sum
                .wrapping_add((generator as u64).wrapping_mul(256))
                .wrapping_add(*count as u64)
                .wrapping_mul(0x9e37_79b9_7f4a_7c15);
            sum = sum.wrapping_add(sum / 0x1_0000_0000);
        }
    }
    (sum / 0x10_0000) as usize
}

impl<A: Allocator + Copy> WordTable<A> {
    /// No word yet.
    pub fn new(alloc: A) -> Result<WordTable<A>, Halt> {
        Ok(WordTable {
            alloc,
            words: Vec::new(alloc),
            slots: vec![in alloc; NONE; FIRST_SLOTS]?,
        })
    }

    /// The number of a word, which is put in if it isn't there.
    pub fn add(&mut self, word: &HeapWord) -> Result<usize, Halt> {
        let slot = self.slot_of(word);
        let known = self.number_in(slot);
        if known != NONE {
            return Ok(known);
        }
        let number = self.words.len();
        self.words.push(*word)?;
        put(&mut self.slots, slot, number);
        if number.saturating_mul(2) > self.slots.len() {
            self.grow()?;
        }
        Ok(number)
    }

    /// Makes twice as many slots.
    fn grow(&mut self) -> Result<(), Halt> {
        self.slots = vec![in self.alloc; NONE; self.slots.len().saturating_mul(2)]?;
        for number in 0..self.words.len() {
            let slot = self.slot_of(&self.word(number));
            put(&mut self.slots, slot, number);
        }
        Ok(())
    }
}

impl<A: Allocator> WordTable<A> {
    /// The word with a number.
    #[inline]
    pub fn word(&self, number: usize) -> HeapWord {
        match self.words.get(number) {
            Some(word) => *word,
            None => ONE,
        }
    }

    /// The number in a slot.
    #[inline]
    fn number_in(&self, slot: usize) -> usize {
        match self.slots.get(slot) {
            Some(number) => *number,
            None => NONE,
        }
    }

    /// The slot of a word, or the one that it is to come to.
    fn slot_of(&self, word: &HeapWord) -> usize {
        let mut slot = rest(mixed(word), self.slots.len());
        for _ in 0..self.slots.len() {
            let number = self.number_in(slot);
            if number == NONE || is_same(&self.word(number), word) {
                break;
            }
            slot = rest(slot.wrapping_add(1), self.slots.len());
        }
        slot
    }

    /// The number of a word, or `NONE`.
    pub fn find(&self, word: &HeapWord) -> usize {
        self.number_in(self.slot_of(word))
    }
}
