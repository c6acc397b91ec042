//! The elements of a claim, numbered by least keys.
use crate::states::States;
use quotient_search::{Halt, Work};
use running_pairs::{Generators, NONE, at, put};
use std::alloc::Allocator;

/// The most elements.
const MOST_ELEMENTS: usize = 8000;

/// The elements, each a state that stands for it, and their least keys.
#[derive(Drop)]
pub struct Elements<A: Allocator> {
    /// The states that stand for states.
    pub roots: Vec<usize, A>,
    /// The states of the elements.
    pub states: Vec<usize, A>,
    /// The elements of states, `NONE` where a state stands for none.
    pub numbers: Vec<usize, A>,
    /// From the element 1 on: a lesser element, and the heap by which it becomes this one.
    pub parents: Vec<usize, A>,
    pub heaps: Vec<usize, A>,
    /// The elements of the heaps 1, 2, ..
    pub heap_elements: Vec<usize, A>,
}

impl<A: Allocator> Elements<A> {
    /// How many there are.
    pub fn order(&self) -> usize {
        self.states.len()
    }

    /// The state behind a heap.
    pub fn behind(
        &self,
        states: &States<A>,
        generators: &Generators<A>,
        state: usize,
        heap: usize,
    ) -> usize {
        let mut found = state;
        for letter in generators.word(heap).iter() {
            found = at(&self.roots, states.step(found, *letter));
        }
        found
    }

    /// The element behind a heap.
    pub fn times(
        &self,
        states: &States<A>,
        generators: &Generators<A>,
        element: usize,
        heap: usize,
    ) -> usize {
        let state = self.behind(states, generators, at(&self.states, element), heap);
        at(&self.numbers, state)
    }

    /// How many elements from 1 on have a key with the element 0.
    pub fn firsts(&self) -> usize {
        let mut count = 0usize;
        for parent in self.parents.iter() {
            if *parent != 0 {
                break;
            }
            count = count.saturating_add(1);
        }
        count
    }

    fn add(&mut self, state: usize) -> Result<(), Halt> {
        put(&mut self.numbers, state, self.states.len());
        self.states.push(state)?;
        Ok(())
    }

    /// Numbers what is behind an element.
    fn go_on(
        &mut self,
        states: &States<A>,
        generators: &Generators<A>,
        element: usize,
        last: usize,
    ) -> Result<(), Halt> {
        let from = at(&self.states, element);
        for heap in 1..last.saturating_add(1) {
            let state = self.behind(states, generators, from, heap);
            if generators.is_kept(heap) && at(&self.numbers, state) == NONE {
                self.add(state)?;
                self.parents.push(element)?;
                self.heaps.push(heap)?;
            }
        }
        Ok(())
    }

    fn note_heaps(
        &mut self,
        states: &States<A>,
        generators: &Generators<A>,
        last: usize,
    ) -> Result<(), Halt> {
        for heap in 1..last.saturating_add(1) {
            let element = if generators.is_kept(heap) {
                self.times(states, generators, 0, heap)
            } else {
                NONE
            };
            self.heap_elements.push(element)?;
        }
        Ok(())
    }
}

/// The elements that states which stand for others make, with the heaps up to `last`.
pub fn elements_of<A: Allocator + Copy>(
    alloc: A,
    states: &States<A>,
    generators: &Generators<A>,
    roots: Vec<usize, A>,
    last: usize,
    work: &mut Work,
) -> Result<Elements<A>, Halt> {
    let mut found = Elements {
        roots,
        states: Vec::new(alloc),
        numbers: vec![in alloc; NONE; states.count]?,
        parents: Vec::new(alloc),
        heaps: Vec::new(alloc),
        heap_elements: Vec::new(alloc),
    };
    let first = at(&found.roots, 0);
    found.add(first)?;
    for element in 0..MOST_ELEMENTS {
        if element >= found.order() {
            break;
        }
        work.spend(last.saturating_mul(4))?;
        found.go_on(states, generators, element, last)?;
    }
    if found.order() > MOST_ELEMENTS {
        return Err(Halt::TooLarge);
    }
    found.note_heaps(states, generators, last)?;
    Ok(found)
}
