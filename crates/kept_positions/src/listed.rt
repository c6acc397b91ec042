//! Positions by their labels, of which nothing is promised: where there are none, the list is empty.
use crate::slots::{read, small, write};
use crate::tables::KeptPositions;
use allocation::Memory;
use std::alloc::{Allocator, Global};

/// The positions of each label, in the order in which they are found: those of label `w` from number `first[w]`
/// on up to that of the next label.
#[derive(Drop)]
pub(crate) struct Listed<A: Allocator = Global> {
    first: Vec<u32, A>,
    list: Vec<u32, A>,
}

/// So many zeros.
pub(crate) fn zeros<A: Allocator>(alloc: A, length: usize) -> Result<Vec<u32, A>, Memory> {
    let mut all = Vec::new(alloc);
    for _ in 0..length {
        all.push(0)?;
    }
    Ok(all)
}

/// Of each label how many positions have a smaller one.
fn counted<A: Allocator + Copy>(
    alloc: A,
    k: &KeptPositions<A>,
    labels: usize,
) -> Result<Vec<u32, A>, Memory> {
    let mut first = zeros(alloc, labels.saturating_add(1))?;
    for i in 0..k.count {
        let after = read(&k.labels, i).saturating_add(1);
        let more = read(&first, after).saturating_add(1);
        write(&mut first, after, more);
    }
    for w in 1..first.len() {
        let sum = read(&first, w - 1).saturating_add(read(&first, w));
        write(&mut first, w, sum);
    }
    Ok(first)
}

impl<A: Allocator + Copy> Listed<A> {
    /// The positions that are found, by their labels.
    pub(crate) fn new(alloc: A, k: &KeptPositions<A>, labels: usize) -> Result<Listed<A>, Memory> {
        let first = counted(alloc, k, labels)?;
        let mut next = counted(alloc, k, labels)?;
        let mut list = zeros(alloc, k.count)?;
        for i in 0..k.count {
            let w = read(&k.labels, i);
            let at = read(&next, w);
            write(&mut list, at, i);
            write(&mut next, w, at.saturating_add(1));
        }
        Ok(Listed { first, list })
    }
}

impl<A: Allocator> Listed<A> {
    /// Those of label `w`.
    pub(crate) fn of(&self, w: usize) -> &[u32] {
        let from = read(&self.first, w);
        let to = read(&self.first, w.saturating_add(1));
        match self.list.get(from..to) {
            Some(part) => part,
            None => &[],
        }
    }
}
