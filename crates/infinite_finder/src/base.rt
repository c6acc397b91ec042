//! The elements that heaps which don't count make.
use quotient_search::{Halt, HeapQuotient, Work};
use running_pairs::{Generators, NONE, at, heap_weight, put};
use std::alloc::Allocator;

/// Elements of a wrong quotient, in the order of the weights of their lightest words, of letters that
/// don't count.
#[derive(Drop)]
pub struct Base<A: Allocator> {
    /// The elements, by their numbers from 0 on.
    pub elements: Vec<usize, A>,
    /// The numbers of elements, `NONE` where an element isn't among them.
    pub numbers: Vec<usize, A>,
    /// The weights of the lightest words.
    pub weights: Vec<usize, A>,
    /// For each number the last letter of the lightest word.
    pub letters: Vec<usize, A>,
    /// For each number that of the word without the last letter.
    pub parents: Vec<usize, A>,
}

/// What is known of elements on the way.
#[derive(Drop)]
struct Reached<A: Allocator> {
    weights: Vec<usize, A>,
    letters: Vec<usize, A>,
    parents: Vec<usize, A>,
}

impl<A: Allocator + Copy> Base<A> {
    /// Of the generators that aren't counted.
    pub fn new(
        alloc: A,
        quotient: &HeapQuotient<A>,
        generators: &Generators<A>,
        counted: &[usize],
        work: &mut Work,
    ) -> Result<Base<A>, Halt> {
        let order = quotient.order();
        let mut base = Base {
            elements: Vec::new(alloc),
            numbers: vec![in alloc; NONE; order]?,
            weights: Vec::new(alloc),
            letters: Vec::new(alloc),
            parents: Vec::new(alloc),
        };
        let mut reached = Reached {
            weights: vec![in alloc; NONE; order]?,
            letters: vec![in alloc; NONE; order]?,
            parents: vec![in alloc; 0usize; order]?,
        };
        put(&mut reached.weights, 0, 0);
        for _ in 0..order {
            work.spend(order.saturating_add(generators.count()))?;
            let element = base.lightest(&reached);
            if element == NONE {
                break;
            }
            base.take(&reached, element)?;
            reached.go_on(quotient, generators, counted, &base, element);
        }
        Ok(base)
    }
}

impl<A: Allocator> Reached<A> {
    /// Goes on from an element by each letter that isn't counted.
    fn go_on(
        &mut self,
        quotient: &HeapQuotient<A>,
        generators: &Generators<A>,
        counted: &[usize],
        base: &Base<A>,
        element: usize,
    ) {
        for letter in 0..generators.count() {
            if counted.contains(&letter) {
                continue;
            }
            let next = quotient.times(element, at(&generators.elements, letter));
            let weight = at(&self.weights, element).saturating_add(heap_weight(at(
                &generators.heaps,
                letter,
            )));
            if weight < at(&self.weights, next) {
                put(&mut self.weights, next, weight);
                put(&mut self.letters, next, letter);
                put(&mut self.parents, next, at(&base.numbers, element));
            }
        }
    }
}

impl<A: Allocator> Base<A> {
    /// How many there are.
    pub fn count(&self) -> usize {
        self.elements.len()
    }

    /// The lightest element that was reached and isn't among them, or `NONE`.
    fn lightest(&self, reached: &Reached<A>) -> usize {
        let mut best = NONE;
        let mut weight = NONE;
        for (element, found) in reached.weights.iter().enumerate() {
            if *found < weight && at(&self.numbers, element) == NONE {
                best = element;
                weight = *found;
            }
        }
        best
    }

    /// Adds an element that was reached.
    fn take(&mut self, reached: &Reached<A>, element: usize) -> Result<(), Halt> {
        put(&mut self.numbers, element, self.elements.len());
        self.elements.push(element)?;
        self.weights.push(at(&reached.weights, element))?;
        self.letters.push(at(&reached.letters, element))?;
        self.parents.push(at(&reached.parents, element))?;
        Ok(())
    }

    /// The number of the product of an element, by its number, with an element of the quotient.
    pub fn times(&self, quotient: &HeapQuotient<A>, number: usize, element: usize) -> usize {
        at(
            &self.numbers,
            quotient.times(at(&self.elements, number), element),
        )
    }
}
