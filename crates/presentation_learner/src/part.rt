//! A part of a game: heaps, and what their moves leave.
use crate::heap_words::GENERATORS;
use heap_options::{Left, options};
use octal_code::Code;
use quotient_search::Halt;
use running_pairs::{NONE, at, byte, heap_weight, put, put_byte};
use std::alloc::Allocator;

/// What a move leaves: at most three generators, `NONE` where there are fewer.
pub type Rest = [usize; 3];

/// Which heaps a part has: those that plays of its last one lead to, or all up to it.
#[derive(Clone, Copy, Debug, PartialEq, Eq)]
pub enum Scope {
    Reached,
    All,
}

/// A part of a game: some heaps, which no move leaves. Those of them that have moves are the *generators*.
#[derive(Drop)]
pub struct Part<A: Allocator> {
    /// For each heap from 1 on whether it is in the part.
    pub marks: Vec<u8, A>,
    /// The generators' heaps, rising, and their weights.
    pub heaps: Vec<usize, A>,
    pub weights: Vec<usize, A>,
    /// The number of each heap's generator, or `NONE`.
    numbers: Vec<usize, A>,
    /// Where each generator's options begin.
    starts: Vec<usize, A>,
    rests: Vec<Rest, A>,
}

/// Marks the heaps that a move leaves.
fn mark_left<A: Allocator>(marks: &mut Vec<u8, A>, left: Left) {
    for heap in left.heaps().as_slice().iter() {
        put_byte(marks, (*heap as usize).wrapping_sub(1), 1);
    }
}

/// Marks what the moves of a heap leave.
fn mark_options<A: Allocator>(marks: &mut Vec<u8, A>, code: &Code, heap: usize) {
    for left in options(code, heap as u64) {
        mark_left(marks, left);
    }
}

/// The heaps of a part, marked.
fn marks_of<A: Allocator + Copy>(
    alloc: A,
    code: &Code,
    last: usize,
    scope: Scope,
) -> Result<Vec<u8, A>, Halt> {
    match scope {
        Scope::Reached => reached(alloc, code, last),
        Scope::All => Ok(vec![in alloc; 1u8; last]?),
    }
}

/// The heaps that plays of a heap lead to, marked.
fn reached<A: Allocator + Copy>(alloc: A, code: &Code, last: usize) -> Result<Vec<u8, A>, Halt> {
    let mut marks: Vec<u8, A> = vec![in alloc; 0u8; last]?;
    put_byte(&mut marks, last.wrapping_sub(1), 1);
    for before in 0..last {
        let heap = last.wrapping_sub(before);
        if byte(&marks, heap.wrapping_sub(1)) == 1 {
            mark_options(&mut marks, code, heap);
        }
    }
    Ok(marks)
}

impl<A: Allocator + Copy> Part<A> {
    /// The part with this last heap.
    pub fn of(alloc: A, code: &Code, last: usize, scope: Scope) -> Result<Part<A>, Halt> {
        let mut part = Part {
            marks: marks_of(alloc, code, last, scope)?,
            heaps: Vec::new(alloc),
            weights: Vec::new(alloc),
            numbers: vec![in alloc; NONE; last.saturating_add(1)]?,
            starts: Vec::from_slice(alloc, &[0usize])?,
            rests: Vec::new(alloc),
        };
        for heap in 1..last.saturating_add(1) {
            if byte(&part.marks, heap.wrapping_sub(1)) == 1 {
                part.add(code, heap)?;
            }
        }
        Ok(part)
    }
}

impl<A: Allocator> Part<A> {
    /// Takes up a heap, which is a generator if it has moves.
    fn add(&mut self, code: &Code, heap: usize) -> Result<(), Halt> {
        let before = self.rests.len();
        for left in options(code, heap as u64) {
            let rest = self.rest_of(left);
            self.rests.push(rest)?;
        }
        if self.rests.len() == before {
            return Ok(());
        }
        if self.heaps.len() >= GENERATORS {
            return Err(Halt::TooLarge);
        }
        put(&mut self.numbers, heap, self.heaps.len());
        self.heaps.push(heap)?;
        self.weights.push(heap_weight(heap))?;
        self.starts.push(self.rests.len()).map_err(Halt::from)
    }

    /// What a move leaves, in generators.
    fn rest_of(&self, left: Left) -> Rest {
        match left {
            Left::Nothing => [NONE, NONE, NONE],
            Left::One(a) => [self.generator(a as usize), NONE, NONE],
            Left::Two(a, b) => [self.generator(a as usize), self.generator(b as usize), NONE],
            Left::Three(a, b, c) => [
                self.generator(a as usize),
                self.generator(b as usize),
                self.generator(c as usize),
            ],
        }
    }

    /// The number of a heap's generator, or `NONE`.
    pub fn generator(&self, heap: usize) -> usize {
        match self.numbers.get(heap) {
            Some(number) => *number,
            None => NONE,
        }
    }

    /// Whether a heap from 1 on is in the part.
    pub fn has(&self, heap: usize) -> bool {
        byte(&self.marks, heap.wrapping_sub(1)) == 1
    }

    /// What the moves of a generator leave.
    pub fn rests_of(&self, generator: usize) -> &[Rest] {
        let from = at(&self.starts, generator);
        let to = at(&self.starts, generator.saturating_add(1));
        match self.rests.get(from..to) {
            Some(rests) => rests,
            None => &[],
        }
    }
}
