//! Lists of items, linked through one memory.
use crate::cells::{index, put_index};
use crate::work::Halt;
use std::alloc::Allocator;

/// No item.
pub const NONE: usize = usize::MAX;

/// So many lists of items 0, 1, .., each item in at most one of them, and the last one put in
/// first.
#[derive(Drop)]
pub struct Chains<A: Allocator> {
    heads: Vec<usize, A>,
    next: Vec<usize, A>,
}

impl<A: Allocator + Copy> Chains<A> {
    /// No list, and no memory.
    pub fn empty(alloc: A) -> Chains<A> {
        Chains {
            heads: Vec::new(alloc),
            next: Vec::new(alloc),
        }
    }

    /// So many empty lists.
    pub fn new(alloc: A, lists: usize) -> Result<Chains<A>, Halt> {
        let heads = vec![in alloc; NONE; lists]?;
        Ok(Chains {
            heads,
            next: Vec::new(alloc),
        })
    }
}

impl<A: Allocator> Chains<A> {
    /// How many lists there are.
    #[inline]
    pub fn lists(&self) -> usize {
        self.heads.len()
    }

    /// The first item of a list, or `NONE`.
    #[inline]
    pub fn first(&self, list: usize) -> usize {
        index(&self.heads, list)
    }

    /// The item behind an item, or `NONE`.
    #[inline]
    pub fn after(&self, item: usize) -> usize {
        index(&self.next, item)
    }

    /// Adds the next item, in no list.
    pub fn add(&mut self) -> Result<(), Halt> {
        self.next.push(NONE).map_err(Halt::from)
    }

    /// Puts an item that is in no list into one.
    #[inline]
    pub fn link(&mut self, item: usize, list: usize) {
        let first = index(&self.heads, list);
        put_index(&mut self.next, item, first);
        put_index(&mut self.heads, list, item);
    }
}
