//! Lists of elements, one after another in one memory.
use crate::cells::{WORD_BITS, index, small};
use crate::work::Halt;
use std::alloc::Allocator;

/// Lists of elements, with numbers from 0 on.
#[derive(Drop)]
pub struct ElementLists<A: Allocator> {
    ends: Vec<usize, A>,
    items: Vec<u16, A>,
}

impl<A: Allocator + Copy> ElementLists<A> {
    /// No list yet.
    pub fn new(alloc: A) -> ElementLists<A> {
        ElementLists {
            ends: Vec::new(alloc),
            items: Vec::new(alloc),
        }
    }
}

impl<A: Allocator> ElementLists<A> {
    fn start(&self, list: usize) -> usize {
        if list == 0 {
            0
        } else {
            index(&self.ends, list - 1)
        }
    }

    /// The items of a list, none where there is no such list.
    #[inline]
    pub fn list(&self, list: usize) -> &[u16] {
        let from = self.start(list);
        let to = index(&self.ends, list);
        if from <= to && to <= self.items.len() {
            &self.items[from..to]
        } else {
            &[]
        }
    }

    /// Adds the list of the elements of a set, rising.
    pub fn push_set(&mut self, set: &[u64]) -> Result<(), Halt> {
        for (place, bits) in set.iter().enumerate() {
            if *bits != 0 {
                self.push_bits(place.wrapping_mul(WORD_BITS), *bits)?;
            }
        }
        self.ends.push(self.items.len()).map_err(Halt::from)
    }

    /// Adds the elements of a word, of which the first one is given, to the open list.
    fn push_bits(&mut self, first: usize, bits: u64) -> Result<(), Halt> {
        for i in 0..WORD_BITS {
            if (bits >> i) & 1 == 1 {
                self.items.push(small(first.wrapping_add(i)))?;
            }
        }
        Ok(())
    }
}
