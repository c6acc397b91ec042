//! Heaps that a wrong quotient needs, and the others in terms of them.
use crate::lists::Lists;
use crate::numbers::{NONE, at, put};
use quotient_search::{Halt, HeapQuotient, Work};
use std::alloc::Allocator;

/// The heaps whose elements are no products of up to three lighter ones' elements, and for each heap
/// its word: such heaps, by their numbers from 0 on, whose product has the same element.
#[derive(Drop)]
pub struct Generators<A: Allocator> {
    pub heaps: Vec<usize, A>,
    pub elements: Vec<usize, A>,
    words: Lists<A>,
    /// For each heap the generator that it has become later, or `NONE`.
    own: Vec<usize, A>,
    /// For each heap whether it is in the part that is looked at.
    kept: Vec<bool, A>,
}

impl<A: Allocator + Copy> Generators<A> {
    /// Of all heaps of a quotient.
    pub fn new(
        alloc: A,
        quotient: &HeapQuotient<A>,
        work: &mut Work,
    ) -> Result<Generators<A>, Halt> {
        let mut found = Generators {
            heaps: Vec::new(alloc),
            elements: Vec::new(alloc),
            words: Lists::new(alloc),
            own: Vec::new(alloc),
            kept: Vec::new(alloc),
        };
        for n in 1..quotient.heaps().len().saturating_add(1) {
            let count = found.heaps.len();
            work.spend(count.saturating_mul(count).saturating_mul(count))?;
            found.add(quotient, n)?;
        }
        Ok(found)
    }
}

impl<A: Allocator> Generators<A> {
    /// How many there are.
    pub fn count(&self) -> usize {
        self.heaps.len()
    }

    /// The word of the heap n.
    pub fn word(&self, n: usize) -> &[usize] {
        let place = n.wrapping_sub(1);
        if place < self.own.len() && self.own[place] != NONE {
            &self.own[place..place + 1]
        } else {
            self.words.list(place)
        }
    }

    /// How many heaps there are.
    pub fn last(&self) -> usize {
        self.own.len()
    }

    /// Whether the heap n is in the part that is looked at.
    pub fn is_kept(&self, n: usize) -> bool {
        match self.kept.get(n.wrapping_sub(1)) {
            Some(is_kept) => *is_kept,
            None => false,
        }
    }

    /// Says whether the heap n is in the part that is looked at.
    pub fn keep(&mut self, n: usize, is_kept: bool) {
        let place = n.wrapping_sub(1);
        if place < self.kept.len() {
            self.kept[place] = is_kept;
        }
    }

    /// Adds the next heap as a generator that changes no element.
    pub fn add_free(&mut self) -> Result<(), Halt> {
        let heap = self.own.len().saturating_add(1);
        self.own.push(self.heaps.len())?;
        self.kept.push(true)?;
        self.heaps.push(heap)?;
        self.elements.push(0)?;
        Ok(())
    }

    /// Makes the heap n a generator.
    pub fn promote(&mut self, n: usize) -> Result<(), Halt> {
        self.promote_as(n, NONE)
    }

    /// Makes the heap n a generator with an element.
    pub(crate) fn promote_as(&mut self, n: usize, element: usize) -> Result<(), Halt> {
        put(&mut self.own, n.wrapping_sub(1), self.heaps.len());
        self.heaps.push(n)?;
        self.elements.push(element)?;
        Ok(())
    }

    /// Adds the heap n, the next one.
    fn add(&mut self, quotient: &HeapQuotient<A>, n: usize) -> Result<(), Halt> {
        let element = quotient.heap(n);
        self.own.push(NONE)?;
        self.kept.push(true)?;
        if element != 0
            && !self.add_as_one(element)?
            && !self.add_as_two(quotient, element)?
            && !self.add_as_three(quotient, element)?
        {
            self.words.add(self.heaps.len())?;
            self.heaps.push(n)?;
            self.elements.push(element)?;
        }
        self.words.close()
    }

    /// The generator with an element, or `NONE`, from this one on.
    fn find(&self, element: usize) -> usize {
        for i in 0..self.elements.len() {
            if at(&self.elements, i) == element {
                return i;
            }
        }
        NONE
    }

    fn add_as_one(&mut self, element: usize) -> Result<bool, Halt> {
        let one = self.find(element);
        if one == NONE {
            return Ok(false);
        }
        self.words.add(one)?;
        Ok(true)
    }

    /// The generator whose product with an element is another one, or `NONE`.
    fn quotient_of(&self, quotient: &HeapQuotient<A>, by: usize, element: usize) -> usize {
        for i in 0..self.elements.len() {
            if quotient.times(by, at(&self.elements, i)) == element {
                return i;
            }
        }
        NONE
    }

    fn add_as_two(&mut self, quotient: &HeapQuotient<A>, element: usize) -> Result<bool, Halt> {
        for i in 0..self.elements.len() {
            let other = self.quotient_of(quotient, at(&self.elements, i), element);
            if other != NONE {
                self.words.add(i)?;
                self.words.add(other)?;
                return Ok(true);
            }
        }
        Ok(false)
    }

    fn add_as_three(&mut self, quotient: &HeapQuotient<A>, element: usize) -> Result<bool, Halt> {
        for i in 0..self.elements.len() {
            for j in 0..i.saturating_add(1) {
                let both = quotient.times(at(&self.elements, i), at(&self.elements, j));
                let other = self.quotient_of(quotient, both, element);
                if other != NONE {
                    self.words.add(i)?;
                    self.words.add(j)?;
                    self.words.add(other)?;
                    return Ok(true);
                }
            }
        }
        Ok(false)
    }
}

/// From where on the powers of an element come again, and after how many.
#[derive(Clone, Copy)]
pub struct Cycle {
    pub lead: usize,
    pub period: usize,
}

/// The cycle of an element's powers.
pub fn cycle_of<A: Allocator + Copy>(
    alloc: A,
    quotient: &HeapQuotient<A>,
    element: usize,
) -> Result<Cycle, Halt> {
    let mut seen: Vec<usize, A> = vec![in alloc; NONE; quotient.order()]?;
    let mut power = 0usize;
    for count in 0..quotient.order().saturating_add(1) {
        let before = at(&seen, power);
        if before != NONE {
            return Ok(Cycle {
                lead: before,
                period: count.wrapping_sub(before),
            });
        }
        put(&mut seen, power, count);
        power = quotient.times(power, element);
    }
    Ok(Cycle { lead: 0, period: 1 })
}
