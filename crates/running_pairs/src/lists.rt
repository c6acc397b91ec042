//! Lists of numbers, one after another in one memory.
use crate::numbers::at;
use quotient_search::Halt;
use std::alloc::Allocator;

/// Lists, which have numbers from 0 on, and the items of the next one.
#[derive(Drop)]
pub struct Lists<A: Allocator> {
    ends: Vec<usize, A>,
    items: Vec<usize, A>,
}

impl<A: Allocator + Copy> Lists<A> {
    /// No list yet.
    pub fn new(alloc: A) -> Lists<A> {
        Lists {
            ends: Vec::new(alloc),
            items: Vec::new(alloc),
        }
    }
}

impl<A: Allocator> Lists<A> {
    /// Where a list begins.
    fn start(&self, list: usize) -> usize {
        if list == 0 {
            0
        } else {
            at(&self.ends, list - 1)
        }
    }

    /// The items of a list, none where there is no such list.
    pub fn list(&self, list: usize) -> &[usize] {
        let from = self.start(list);
        let to = at(&self.ends, list);
        if from <= to && to <= self.items.len() {
            &self.items[from..to]
        } else {
            &[]
        }
    }

    /// Adds an item to the next list.
    pub fn add(&mut self, item: usize) -> Result<(), Halt> {
        self.items.push(item).map_err(Halt::from)
    }

    /// Ends the next list.
    pub fn close(&mut self) -> Result<(), Halt> {
        self.ends.push(self.items.len()).map_err(Halt::from)
    }

    /// The items of the next list.
    fn open(&self) -> &[usize] {
        let from = self.start(self.ends.len());
        if from <= self.items.len() {
            &self.items[from..]
        } else {
            &[]
        }
    }

    /// Adds an item to the next list, unless it has it.
    pub fn add_new(&mut self, item: usize) -> Result<(), Halt> {
        if self.open().contains(&item) {
            return Ok(());
        }
        self.add(item)
    }

    /// How many items all lists have.
    pub fn size(&self) -> usize {
        self.items.len()
    }

    /// Whether two numbers stand one after the other, at an even place, in the next list.
    fn has_pair(&self, from: usize, one: usize, other: usize) -> bool {
        let count = self.items.len().saturating_sub(from) / 2;
        for i in 0..count {
            let place = from.wrapping_add(i.wrapping_mul(2));
            if at(&self.items, place) == one && at(&self.items, place.wrapping_add(1)) == other {
                return true;
            }
        }
        false
    }

    /// Adds two numbers to the next list of pairs, unless it has them.
    pub fn add_pair(&mut self, one: usize, other: usize) -> Result<(), Halt> {
        let from = self.start(self.ends.len());
        if self.has_pair(from, one, other) {
            return Ok(());
        }
        self.add(one)?;
        self.add(other)
    }
}
