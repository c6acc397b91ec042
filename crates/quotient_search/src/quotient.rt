//! Quotients on the way: a finite commutative monoid for the heaps up to some size.
use crate::cells::{at, part, small, word};
use crate::lists::ElementLists;
use crate::rests::{Rests, Values};
use crate::scene::Scene;
use crate::twins::Twins;
use crate::work::{Halt, Means, Work};
use octal_code::Code;
use std::alloc::Allocator;

/// A commutative monoid with the elements of the heaps 1, 2, .. Each element is known by its
/// lightest representative, where a heap n weighs 2n - 1, and the elements are numbered by that
/// weight.
#[derive(Drop)]
pub struct HeapQuotient<A: Allocator> {
    /// How many elements there are.
    pub(crate) order: usize,
    /// How many words a row has.
    pub(crate) words: usize,
    /// The products, row after row.
    pub(crate) products: Vec<u16, A>,
    /// For each element the row of the contexts beside which it is lost.
    pub(crate) rows: Vec<u64, A>,
    /// The weights of the representatives.
    pub(crate) weights: Vec<u64, A>,
    /// The values of the representatives' options.
    pub(crate) options: ElementLists<A>,
    /// The elements of the heaps 1, 2, ..
    pub(crate) heaps: Vec<u16, A>,
    /// The values of the heaps' options.
    pub(crate) moves: ElementLists<A>,
    /// The values of the rests of heaps.
    rests: Rests<A>,
    /// Heaps that were added beside these elements, by the values of their options.
    twins: Twins<A>,
}

/// The weight of the heap n.
pub fn heap_weight(n: usize) -> u64 {
    (n as u64).saturating_mul(2).saturating_sub(1)
}

impl<A: Allocator + Copy> HeapQuotient<A> {
    /// No element yet, and no memory.
    pub(crate) fn empty(alloc: A) -> HeapQuotient<A> {
        HeapQuotient {
            order: 0,
            words: 0,
            products: Vec::new(alloc),
            rows: Vec::new(alloc),
            weights: Vec::new(alloc),
            options: ElementLists::new(alloc),
            heaps: Vec::new(alloc),
            moves: ElementLists::new(alloc),
            rests: Rests::empty(alloc),
            twins: Twins::empty(alloc),
        }
    }

    /// Finds the values of all heaps' options anew.
    pub(crate) fn renew_moves(&mut self, means: &mut Means<'_, A>) -> Result<(), Halt> {
        self.moves = ElementLists::new(means.alloc);
        self.rests = Rests::empty(means.alloc);
        self.rests.begin(self.order)?;
        for n in 1..self.heaps.len().saturating_add(1) {
            self.add_moves(means.code, n, &mut means.work)?;
        }
        Ok(())
    }
}

impl<A: Allocator> HeapQuotient<A> {
    /// Makes an empty one the quotient without any heap.
    pub(crate) fn begin(&mut self, scene: &Scene<A>) -> Result<(), Halt> {
        self.order = 1;
        self.words = scene.words;
        self.rows.resize(scene.words, 0)?;
        scene.settle(&[], false, &mut self.rows);
        self.products.push(0)?;
        self.weights.push(0)?;
        self.rests.begin(1)?;
        self.options.push_set(&[])
    }

    /// How many elements there are.
    pub fn order(&self) -> usize {
        self.order
    }

    /// The products, row after row.
    pub fn products(&self) -> &[u16] {
        &self.products
    }

    /// The elements of the heaps 1, 2, ..
    pub fn heaps(&self) -> &[u16] {
        &self.heaps
    }

    /// The product.
    #[inline]
    pub fn times(&self, x: usize, y: usize) -> usize {
        at(&self.products, x.wrapping_mul(self.order).wrapping_add(y))
    }

    /// The row of an element.
    pub(crate) fn row(&self, x: usize) -> &[u64] {
        part(&self.rows, x.wrapping_mul(self.words), self.words)
    }

    /// Whether an element is in the portion.
    #[inline]
    pub fn is_in_portion(&self, x: usize) -> bool {
        word(&self.rows, x.wrapping_mul(self.words)) & 1 == 1
    }

    /// The element of the heap n.
    pub fn heap(&self, n: usize) -> usize {
        at(&self.heaps, n.wrapping_sub(1))
    }

    /// The values of the options of the heap n.
    pub(crate) fn heap_moves(&self, n: usize) -> &[u16] {
        self.moves.list(n.wrapping_sub(1))
    }

    /// Adds the values of the options of the heap n, the next one.
    pub(crate) fn add_moves(&mut self, code: &Code, n: usize, work: &mut Work) -> Result<(), Halt> {
        let values = Values {
            heaps: &self.heaps,
            products: &self.products,
            order: self.order,
        };
        self.rests.add(values, code, n, work)?;
        self.moves.push_set(self.rests.set())
    }

    /// Adds the heap n, the next one, whose options have their values, with the element of a heap that
    /// was added beside these elements and whose options have the same values. Answers whether there
    /// is one.
    pub(crate) fn add_as_twin(&mut self, n: usize, work: &mut Work) -> Result<bool, Halt> {
        work.spend(self.twins.len())?;
        let Some(twin) = self.twins.find(&self.moves, n.wrapping_sub(1)) else {
            return Ok(false);
        };
        let element = at(&self.heaps, twin);
        self.heaps.push(small(element))?;
        Ok(true)
    }

    /// Takes note of the heap n, which was added beside these elements.
    pub(crate) fn note_moves(&mut self, n: usize) -> Result<(), Halt> {
        self.twins.note(&self.moves, n.wrapping_sub(1))
    }
}
