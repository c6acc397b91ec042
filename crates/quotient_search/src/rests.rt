//! The values of what moves leave of a heap, as sets of elements.
use crate::cells::{WORD_BITS, at, bit, clear, put_word, set_bit, word, words_for};
use crate::work::{Halt, Work};
use octal_code::{Code, Leaving};
use std::alloc::Allocator;

/// The elements of the heaps 1, 2, .. and the products, row after row.
#[derive(Clone, Copy)]
pub struct Values<'a> {
    pub heaps: &'a [u16],
    pub products: &'a [u16],
    pub order: usize,
}

impl Values<'_> {
    /// The element of the heap n.
    fn heap(self, n: usize) -> usize {
        at(self.heaps, n.wrapping_sub(1))
    }

    fn times(self, x: usize, y: usize) -> usize {
        at(self.products, x.wrapping_mul(self.order).wrapping_add(y))
    }
}

/// For each rest 1, 2, .. the values of the two heaps, and of the three, that make it up.
#[derive(Drop)]
pub struct Rests<A: Allocator> {
    /// How many words a set has.
    words: usize,
    twos: Vec<u64, A>,
    threes: Vec<u64, A>,
    /// The set that is written.
    set: Vec<u64, A>,
}

impl<A: Allocator + Copy> Rests<A> {
    /// No rest, and no memory.
    pub fn empty(alloc: A) -> Rests<A> {
        Rests {
            words: 0,
            twos: Vec::new(alloc),
            threes: Vec::new(alloc),
            set: Vec::new(alloc),
        }
    }
}

/// Whether some digit of the code allows so much to stay.
fn leaves(code: &Code, leaving: Leaving) -> bool {
    (0..code.last() as u64 + 1).any(|j| code.allows(j, leaving))
}

/// Adds the values of the two heaps that make up a rest.
fn add_twos<A: Allocator>(values: Values<'_>, rest: usize, set: &mut Vec<u64, A>) {
    for a in 1..rest / 2 + 1 {
        let value = values.times(values.heap(a), values.heap(rest.wrapping_sub(a)));
        set_bit(set, value);
    }
}

/// Adds the products of an element with those of the set at a place.
fn add_products<A: Allocator>(
    values: Values<'_>,
    x: usize,
    sets: &[u64],
    from: usize,
    set: &mut Vec<u64, A>,
) {
    for y in 0..values.order {
        if bit(sets, from.wrapping_mul(WORD_BITS).wrapping_add(y)) {
            set_bit(set, values.times(x, y));
        }
    }
}

/// Adds the set at a place.
fn unite<A: Allocator>(sets: &[u64], from: usize, set: &mut Vec<u64, A>) {
    for place in 0..set.len() {
        let bits = word(set, place) | word(sets, from.wrapping_add(place));
        put_word(set, place, bits);
    }
}

impl<A: Allocator> Rests<A> {
    /// Makes an empty one ready for so many elements.
    pub fn begin(&mut self, order: usize) -> Result<(), Halt> {
        self.words = words_for(order);
        self.set.resize(self.words, 0).map_err(Halt::from)
    }

    /// The set that was written last.
    pub fn set(&self) -> &[u64] {
        &self.set
    }

    /// Where the sets of a rest begin.
    fn place(&self, rest: usize) -> usize {
        rest.wrapping_sub(1).wrapping_mul(self.words)
    }

    /// Adds the rest n, the next one, all of whose parts have their elements, and writes the values
    /// of the options of the heap n.
    pub fn add(
        &mut self,
        values: Values<'_>,
        code: &Code,
        n: usize,
        work: &mut Work,
    ) -> Result<(), Halt> {
        let has_three = code.leaves_three();
        if has_three || leaves(code, Leaving::TwoHeaps) {
            work.spend((n / 2).saturating_add(self.words))?;
            clear(&mut self.set);
            add_twos(values, n, &mut self.set);
            self.twos.extend_from_slice(&self.set)?;
        }
        if has_three {
            self.add_threes(values, n, work)?;
        }
        work.spend(self.words.saturating_mul(20).saturating_add(values.order))?;
        self.write(values, code, n);
        Ok(())
    }

    /// Adds the values of the three heaps that make up the rest n: the least of them beside two
    /// that make up what it leaves.
    fn add_threes(&mut self, values: Values<'_>, n: usize, work: &mut Work) -> Result<(), Halt> {
        clear(&mut self.set);
        for a in 1..n / 3 + 1 {
            work.spend(values.order)?;
            let from = self.place(n.wrapping_sub(a));
            add_products(values, values.heap(a), &self.twos, from, &mut self.set);
        }
        self.threes.extend_from_slice(&self.set).map_err(Halt::from)
    }

    /// Writes the values of the options of the heap n.
    fn write(&mut self, values: Values<'_>, code: &Code, n: usize) {
        clear(&mut self.set);
        for j in 0..n.min(code.last() as usize) + 1 {
            self.write_digit(values, code, n, j);
        }
    }

    /// Adds the values of the options of the heap n by which j is taken away.
    fn write_digit(&mut self, values: Values<'_>, code: &Code, n: usize, j: usize) {
        let rest = n.wrapping_sub(j);
        let from = self.place(rest);
        if code.takes_all(n as u64, j as u64) {
            set_bit(&mut self.set, 0);
        }
        if code.leaves_one(n as u64, j as u64) {
            set_bit(&mut self.set, values.heap(rest));
        }
        if code.allows(j as u64, Leaving::TwoHeaps) {
            unite(&self.twos, from, &mut self.set);
        }
        if code.allows(j as u64, Leaving::ThreeHeaps) {
            unite(&self.threes, from, &mut self.set);
        }
    }
}
