//! Sets of elements, one after another in one memory.
use crate::cells::{index, part};
use crate::work::Halt;
use std::alloc::Allocator;

/// The most words that sets have together.
pub const MOST_WORDS: usize = 4_000_000;

/// Numbers, each with a set of elements of so many words.
#[derive(Drop)]
pub struct Sets<A: Allocator> {
    words: usize,
    numbers: Vec<usize, A>,
    bits: Vec<u64, A>,
}

impl<A: Allocator + Copy> Sets<A> {
    /// None yet, of so many words each.
    pub fn new(alloc: A, words: usize) -> Sets<A> {
        Sets {
            words,
            numbers: Vec::new(alloc),
            bits: Vec::new(alloc),
        }
    }
}

impl<A: Allocator> Sets<A> {
    /// How many there are.
    #[inline]
    pub fn len(&self) -> usize {
        self.numbers.len()
    }

    /// How many words a set has.
    #[inline]
    pub fn words(&self) -> usize {
        self.words
    }

    /// How many words all sets have together.
    #[inline]
    pub fn size(&self) -> usize {
        self.bits.len()
    }

    /// The number at a place.
    #[inline]
    pub fn number(&self, place: usize) -> usize {
        index(&self.numbers, place)
    }

    /// The set at a place.
    #[inline]
    pub fn set(&self, place: usize) -> &[u64] {
        part(&self.bits, place.wrapping_mul(self.words), self.words)
    }

    /// Adds a number and its set.
    pub fn push(&mut self, number: usize, set: &[u64]) -> Result<(), Halt> {
        self.numbers.push(number)?;
        self.bits.extend_from_slice(set).map_err(Halt::from)
    }
}
