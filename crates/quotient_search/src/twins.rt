//! Heaps whose options have the same values: each does what the other does.
use crate::cells::at;
use crate::lists::ElementLists;
use crate::work::Halt;
use std::alloc::Allocator;

/// Lists of elements, each with a mark by which it is found.
#[derive(Drop)]
pub struct Twins<A: Allocator> {
    marks: Vec<u64, A>,
    lists: Vec<usize, A>,
}

impl<A: Allocator + Copy> Twins<A> {
    /// No list, and no memory.
    pub fn empty(alloc: A) -> Twins<A> {
        Twins {
            marks: Vec::new(alloc),
            lists: Vec::new(alloc),
        }
    }
}

/// A hash of a list.
fn mark_of(list: &[u16]) -> u64 {
    let mut mark = list.len() as u64;
    for value in list {
        mark = mark
            .wrapping_add(*value as u64)
            .wrapping_mul(0x9E37_79B9_7F4A_7C15);
        mark ^= mark >> 29;
    }
    mark
}

/// Whether two lists have the same values.
fn are_same(one: &[u16], other: &[u16]) -> bool {
    for (place, value) in one.iter().enumerate() {
        if at(other, place) != *value as usize {
            return false;
        }
    }
    one.len() == other.len()
}

impl<A: Allocator> Twins<A> {
    /// How many lists there are.
    pub fn len(&self) -> usize {
        self.lists.len()
    }

    /// Takes note of a list.
    pub fn note(&mut self, lists: &ElementLists<A>, list: usize) -> Result<(), Halt> {
        self.marks.push(mark_of(lists.list(list)))?;
        self.lists.push(list).map_err(Halt::from)
    }

    /// A list that was noted with the values of this one.
    pub fn find(&self, lists: &ElementLists<A>, list: usize) -> Option<usize> {
        let values = lists.list(list);
        let mark = mark_of(values);
        let place = self.marks.iter().position(|noted| *noted == mark)?;
        let twin = self.lists.get(place).copied()?;
        if are_same(values, lists.list(twin)) {
            Some(twin)
        } else {
            None
        }
    }
}
