//! Elements in groups: those of one group are in the portion beside the same labels so far. Nothing is promised of them.
use crate::classes::ListedWords;
use crate::leading::form_of;
use allocation::Memory;
use normal_forms::Exponents;
use presented_tables::{Presented, cycled_word};
use std::alloc::{Allocator, Global};

/// Number `k` of the list, 0 if there is none.
fn read(list: &[u32], k: usize) -> u32 {
    match list.get(k) {
        Some(v) => *v,
        None => 0,
    }
}

/// Writes number `k` of the list, if there is one.
fn write(list: &mut [u32], k: usize, v: u32) {
    if k < list.len() {
        list[k] = v;
    }
}

/// So many zeros.
fn zeros<A: Allocator>(alloc: A, count: usize) -> Result<Vec<u32, A>, Memory> {
    let mut all = Vec::new(alloc);
    for _ in 0..count {
        all.push(0)?;
    }
    Ok(all)
}

/// The number, or the largest there is.
fn small(x: usize) -> u32 {
    x.min(u32::MAX as usize) as u32
}

/// Of each element the group in which it is, and of each group how many there are in it.
#[derive(Drop)]
pub(crate) struct Groups<A: Allocator = Global> {
    of: Vec<u32, A>,
    sizes: Vec<u32, A>,
}

impl<A: Allocator + Copy> Groups<A> {
    /// All elements in one group.
    pub(crate) fn new(alloc: A, count: usize) -> Result<Groups<A>, Memory> {
        let of = zeros(alloc, count)?;
        let mut sizes = Vec::new(alloc);
        sizes.push(small(count))?;
        Ok(Groups { of, sizes })
    }

    /// Which elements are in the portion beside the label, of those that are in a group with others.
    fn marks<B: Allocator>(
        &self,
        alloc: A,
        p: &Presented<B>,
        portion: &ListedWords<B>,
        elements: &ListedWords<B>,
        label: &Exponents,
    ) -> Result<Vec<bool, A>, Memory> {
        let mut marks = Vec::new(alloc);
        for x in 0..elements.len() {
            let group = read(&self.of, x) as usize;
            marks.push(1 < read(&self.sizes, group) && says(p, portion, elements, x, label))?;
        }
        Ok(marks)
    }

    /// How many elements of each group are marked.
    fn counts(&self, alloc: A, marks: &[bool]) -> Result<Vec<u32, A>, Memory> {
        let mut counts = zeros(alloc, self.sizes.len())?;
        for x in 0..marks.len() {
            if marks[x] {
                let group = read(&self.of, x) as usize;
                let count = read(&counts, group).saturating_add(1);
                write(&mut counts, group, count);
            }
        }
        Ok(counts)
    }

    /// A new group for each one of which some are marked, but not all: its number, or 0.
    fn divide(&mut self, alloc: A, counts: &[u32]) -> Result<Vec<u32, A>, Memory> {
        let mut made = Vec::new(alloc);
        for g in 0..counts.len() {
            let size = read(&self.sizes, g);
            let count = counts[g];
            if 0 < count && count < size {
                made.push(small(self.sizes.len()))?;
                self.sizes.push(count)?;
                write(&mut self.sizes, g, size - count);
            } else {
                made.push(0)?;
            }
        }
        Ok(made)
    }

    /// Splits the groups by which elements are in the portion beside the label, and says whether there is a new one.
    pub(crate) fn split<B: Allocator>(
        &mut self,
        alloc: A,
        p: &Presented<B>,
        portion: &ListedWords<B>,
        elements: &ListedWords<B>,
        label: &Exponents,
    ) -> Result<bool, Memory> {
        let before = self.sizes.len();
        let marks = self.marks(alloc, p, portion, elements, label)?;
        let counts = self.counts(alloc, &marks)?;
        let made = self.divide(alloc, &counts)?;
        for x in 0..marks.len() {
            let group = read(&made, read(&self.of, x) as usize);
            if marks[x] && 0 < group {
                write(&mut self.of, x, group);
            }
        }
        Ok(before < self.sizes.len())
    }
}

impl<A: Allocator> Groups<A> {
    /// How many groups there are.
    pub(crate) fn len(&self) -> usize {
        self.sizes.len()
    }
}

/// Whether element `x` is in the portion beside the label.
fn says<A: Allocator>(
    p: &Presented<A>,
    portion: &ListedWords<A>,
    elements: &ListedWords<A>,
    x: usize,
    label: &Exponents,
) -> bool {
    let Some(element) = elements.get(x) else {
        return false;
    };
    match form_of(p, element, label) {
        Some(form) => portion.find(&cycled_word(&p.cycles, &form)).is_some(),
        None => false,
    }
}
