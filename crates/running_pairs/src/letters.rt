//! The letters of a part: heaps that its other heaps are words of.
use crate::generators::Generators;
use crate::lists::Lists;
use crate::numbers::{NONE, at};
use heap_options::options;
use octal_code::Code;
use quotient_search::{Halt, Work};
use std::alloc::Allocator;

/// The most heaps that a move leaves.
const MOST_PARTS: usize = 3;

/// How often an option has each of the two letters that run against each other, in one number.
const SIDES: usize = 16;

/// How many such numbers there are.
pub const CHANGES: usize = 256;

/// The letters, the heaps' words and options, and the two letters that run against each other, `NONE`
/// where there are none yet.
#[derive(Drop)]
pub struct Letters<A: Allocator> {
    pub generators: Generators<A>,
    /// For each heap its options, each so many heaps, 0 where there are fewer.
    options: Lists<A>,
    pub falling: usize,
    pub rising: usize,
}

/// How often two letters occur, in one number.
pub fn change(down: usize, up: usize) -> usize {
    down.min(SIDES - 1) * SIDES + up.min(SIDES - 1)
}

/// How often the first of two letters occurs.
#[inline]
pub fn downs(change: usize) -> usize {
    change / SIDES % SIDES
}

/// How often the second of two letters occurs.
#[inline]
pub fn ups(change: usize) -> usize {
    change % SIDES
}

impl<A: Allocator + Copy> Letters<A> {
    /// For generators, with no pair yet.
    pub fn new(
        alloc: A,
        code: &Code,
        generators: Generators<A>,
        work: &mut Work,
    ) -> Result<Letters<A>, Halt> {
        let mut letters = Letters {
            generators,
            options: Lists::new(alloc),
            falling: NONE,
            rising: NONE,
        };
        for heap in 1..letters.generators.last().saturating_add(1) {
            work.spend(heap.saturating_mul(heap))?;
            letters.add_options(code, heap)?;
        }
        Ok(letters)
    }
}

impl<A: Allocator> Letters<A> {
    fn add_options(&mut self, code: &Code, heap: usize) -> Result<(), Halt> {
        for left in options(code, heap as u64) {
            let parts = left.heaps();
            for i in 0..MOST_PARTS {
                let part = match parts.as_slice().get(i) {
                    Some(part) => *part as usize,
                    None => 0,
                };
                self.options.add(part)?;
            }
        }
        self.options.close()
    }

    /// How many letters there are.
    pub fn count(&self) -> usize {
        self.generators.count()
    }

    /// The heap of a letter.
    pub fn heap(&self, letter: usize) -> usize {
        at(&self.generators.heaps, letter)
    }

    /// The letter of a heap, or `NONE`.
    pub fn letter(&self, heap: usize) -> usize {
        for letter in 0..self.count() {
            if self.heap(letter) == heap {
                return letter;
            }
        }
        NONE
    }

    /// How many options a heap has.
    pub fn options(&self, heap: usize) -> usize {
        self.options.list(heap.wrapping_sub(1)).len() / MOST_PARTS
    }

    /// A heap that an option of a heap has, or 0.
    pub fn part(&self, heap: usize, option: usize, i: usize) -> usize {
        let place = option.wrapping_mul(MOST_PARTS).wrapping_add(i);
        at(self.options.list(heap.wrapping_sub(1)), place)
    }

    /// Whether a letter is one of the pair.
    pub fn is_running(&self, letter: usize) -> bool {
        letter == self.falling || letter == self.rising
    }

    /// Whether a heap is one of the pair, where there is one.
    pub fn has_running(&self, heap: usize) -> bool {
        self.falling != NONE && (self.heap(self.falling) == heap || self.heap(self.rising) == heap)
    }

    /// How often the pair's letters occur in a heap's word.
    pub fn change_of(&self, heap: usize) -> usize {
        let mut down = 0usize;
        let mut up = 0usize;
        for letter in self.generators.word(heap).iter() {
            down = down.wrapping_add(usize::from(*letter == self.falling));
            up = up.wrapping_add(usize::from(*letter == self.rising));
        }
        change(down, up)
    }

    /// Whether some heap of the part has a letter in its word.
    pub fn is_used(&self, letter: usize) -> bool {
        for heap in 1..self.generators.last().saturating_add(1) {
            if self.generators.is_kept(heap) && self.generators.word(heap).contains(&letter) {
                return true;
            }
        }
        false
    }

    /// Keeps those heaps alone to which moves lead from the pair and from the last heap.
    pub fn keep_needed(&mut self) {
        let last = self.generators.last();
        let (falling, rising) = (self.heap(self.falling), self.heap(self.rising));
        for heap in 1..last {
            self.generators
                .keep(heap, heap == falling || heap == rising);
        }
        for back in 0..last {
            let heap = last.wrapping_sub(back);
            if self.generators.is_kept(heap) {
                self.keep_options(heap);
            }
        }
    }

    /// Whether some heap isn't in the part.
    pub fn leave_out(&self) -> bool {
        for heap in 1..self.generators.last().saturating_add(1) {
            if !self.generators.is_kept(heap) {
                return true;
            }
        }
        false
    }

    fn keep_options(&mut self, heap: usize) {
        for option in 0..self.options(heap) {
            for i in 0..MOST_PARTS {
                let part = self.part(heap, option, i);
                self.generators.keep(part, true);
            }
        }
    }
}
