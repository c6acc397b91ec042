//! Partitions that get finer.
use crate::cells::{index, put_index, word};
use crate::work::{Halt, Work};
use std::alloc::Allocator;
use std::mem;

/// A partition of the numbers below some size into classes 0, 1, .., and a key of each number, by
/// which classes are split.
#[derive(Drop)]
pub struct Partition<A: Allocator> {
    pub classes: Vec<usize, A>,
    pub keys: Vec<u64, A>,
    pub count: usize,
    next: Vec<usize, A>,
    slots: Vec<usize, A>,
}

/// A power of two, at least twice the size.
fn slots_for(size: usize) -> usize {
    let mut slots = 64usize;
    for _ in 0..32 {
        if slots / 2 >= size {
            return slots;
        }
        slots = slots.wrapping_mul(2);
    }
    slots
}

impl<A: Allocator + Copy> Partition<A> {
    /// All in one class.
    pub fn new(alloc: A, size: usize) -> Result<Partition<A>, Halt> {
        let mut partition = Partition {
            classes: Vec::new(alloc),
            keys: Vec::new(alloc),
            count: 1,
            next: Vec::new(alloc),
            slots: Vec::new(alloc),
        };
        partition.begin(size)?;
        Ok(partition)
    }
}

impl<A: Allocator> Partition<A> {
    fn begin(&mut self, size: usize) -> Result<(), Halt> {
        self.classes.resize(size, 0)?;
        self.keys.resize(size, 0)?;
        self.next.resize(size, 0)?;
        self.slots.resize(slots_for(size), 0)?;
        Ok(())
    }

    /// Splits the classes by the keys. That is about four steps a number, and one for each slot that
    /// is passed over since another one has it.
    pub fn split(&mut self, work: &mut Work) -> Result<(), Halt> {
        work.spend(self.keys.len().saturating_mul(4).saturating_add(1))?;
        self.slots.fill(0);
        let mut count = 0usize;
        for z in 0..self.classes.len() {
            let (slot, passed) = self.slot_of(z);
            work.spend(passed)?;
            let first = index(&self.slots, slot);
            if first == 0 {
                put_index(&mut self.slots, slot, z.wrapping_add(1));
                put_index(&mut self.next, z, count);
                count = count.wrapping_add(1);
            } else {
                let class = index(&self.next, first.wrapping_sub(1));
                put_index(&mut self.next, z, class);
            }
        }
        mem::swap(&mut self.classes, &mut self.next);
        self.count = count;
        Ok(())
    }

    /// The slot that holds the first number with this class and key, or a free one, and how many
    /// were passed over.
    fn slot_of(&self, z: usize) -> (usize, usize) {
        let class = index(&self.classes, z);
        let key = word(&self.keys, z);
        let last = self.slots.len().wrapping_sub(1);
        let mut slot = mixed(class, key) & last;
        for passed in 0..self.slots.len() {
            let first = index(&self.slots, slot);
            if first == 0 || self.is_as(first.wrapping_sub(1), class, key) {
                return (slot, passed);
            }
            slot = slot.wrapping_add(1) & last;
        }
        (slot, self.slots.len())
    }

    fn is_as(&self, z: usize, class: usize, key: u64) -> bool {
        index(&self.classes, z) == class && word(&self.keys, z) == key
    }
}

/// A hash of a class and a key.
fn mixed(class: usize, key: u64) -> usize {
    let both = key.wrapping_add((class as u64).wrapping_mul(0x1_0000_0001));
    (both.wrapping_mul(0x9E37_79B9_7F4A_7C15) >> 20) as usize
}
