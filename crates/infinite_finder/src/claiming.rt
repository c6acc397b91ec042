//! Claims of what was merged: values of positions, with elements and two counts.
use crate::elements::Elements;
use crate::outcomes::LOST;
use crate::shapes::Shape;
use crate::states::States;
use octal_code::Code;
use presentation_search::{ClaimValues, Counts, Value, ValueTable, reduced};
use quotient_search::{Halt, Work};
use running_pairs::{Generators, NONE, at, put, put_byte};
use std::alloc::Allocator;

/// The most elements of a claim.
const MOST_ELEMENTS: usize = 4096;

/// A count, which is small.
fn count(copies: usize) -> u32 {
    copies.min(u32::MAX as usize) as u32
}

/// The number of an element, of which there aren't too many.
fn number(element: usize) -> u16 {
    element.min(MOST_ELEMENTS) as u16
}

/// A claim on the way to its values.
#[derive(Drop)]
pub struct Sketch<'a, A: Allocator> {
    pub alloc: A,
    pub generators: &'a Generators<A>,
    /// The letters that count.
    pub counted: &'a [usize],
    pub shape: &'a Shape<A>,
    pub states: &'a States<A>,
    pub elements: &'a Elements<A>,
}

impl<A: Allocator + Copy> Sketch<'_, A> {
    /// The place of a letter among those that count.
    fn place_of(&self, letter: usize) -> Option<usize> {
        self.counted.iter().position(|counted| *counted == letter)
    }

    /// What a heap adds to the two counts.
    fn heap_counts(&self, heap: usize) -> Counts {
        let mut down = 0usize;
        let mut up = 0usize;
        for letter in self.generators.word(heap).iter() {
            if let Some(i) = self.place_of(*letter) {
                down = down.saturating_add(at(&self.shape.downs, i));
                up = up.saturating_add(at(&self.shape.ups, i));
            }
        }
        Counts {
            down: count(down),
            up: count(up),
        }
    }

    /// The value of a heap, unless it is left out.
    fn heap_value(&self, heap: usize) -> Option<Value> {
        let element = at(&self.elements.heap_elements, heap.wrapping_sub(1));
        if element == NONE {
            return None;
        }
        Some(Value {
            element: number(element),
            counts: reduced(self.shape.fold, self.heap_counts(heap)),
        })
    }

    /// Where each heap leads from each element, the elements one after another.
    fn steps(&self, work: &mut Work) -> Result<Vec<usize, A>, Halt> {
        let heaps = self.elements.heap_elements.len();
        work.spend(self.elements.order().saturating_mul(heaps))?;
        let mut steps: Vec<usize, A> = Vec::new(self.alloc);
        for element in 0..self.elements.order() {
            for heap in 1..heaps.saturating_add(1) {
                let to = self
                    .elements
                    .times(self.states, self.generators, element, heap);
                steps.push(to)?;
            }
        }
        Ok(steps)
    }

    /// The products of an element, by the last heaps of the others' words.
    fn row(&self, steps: &[usize], element: usize) -> Result<Vec<usize, A>, Halt> {
        let order = self.elements.order();
        let heaps = self.elements.heap_elements.len();
        let mut row: Vec<usize, A> = vec![in self.alloc; 0usize; order]?;
        put(&mut row, 0, element);
        for (place, heap) in self.elements.heaps.iter().enumerate() {
            let before = at(&row, at(&self.elements.parents, place));
            let step = before
                .wrapping_mul(heaps)
                .wrapping_add(heap.wrapping_sub(1));
            put(&mut row, place.wrapping_add(1), at(steps, step));
        }
        Ok(row)
    }

    /// The products of all elements, one row after another.
    fn rows(&self, work: &mut Work) -> Result<Vec<u16, A>, Halt> {
        let steps = self.steps(work)?;
        let mut rows: Vec<u16, A> = Vec::new(self.alloc);
        for element in 0..self.elements.order() {
            work.spend(self.elements.order())?;
            for product in self.row(&steps, element)?.iter() {
                rows.push(number(*product))?;
            }
        }
        Ok(rows)
    }

    /// For each element and each place whether it is P.
    fn inside(&self, work: &mut Work) -> Result<Vec<u8, A>, Halt> {
        let places = self.states.places;
        let size = self.elements.order().saturating_mul(places);
        work.spend(size)?;
        let mut inside: Vec<u8, A> = vec![in self.alloc; 0u8; size]?;
        for element in 0..self.elements.order() {
            let state = at(&self.elements.states, element);
            for place in 0..places {
                let is_lost = self.states.outcome(state, place) == LOST;
                let to = element.wrapping_mul(places).wrapping_add(place);
                put_byte(&mut inside, to, u8::from(is_lost));
            }
        }
        Ok(inside)
    }

    /// The heaps of an element's least word, the last one first.
    pub fn word(&self, element: usize) -> Result<Vec<usize, A>, Halt> {
        let mut heaps: Vec<usize, A> = Vec::new(self.alloc);
        let mut left = element;
        for _ in 0..element.saturating_add(1) {
            if left == 0 || left == NONE {
                break;
            }
            let place = left.wrapping_sub(1);
            heaps.push(at(&self.elements.heaps, place))?;
            left = at(&self.elements.parents, place);
        }
        Ok(heaps)
    }

    /// The claim, unless it has too many elements, or doesn't obey the rule.
    pub fn claim(&self, code: &Code, work: &mut Work) -> Result<Option<ClaimValues<A>>, Halt> {
        let order = self.elements.order();
        if order > MOST_ELEMENTS {
            return Ok(None);
        }
        let mut heaps: Vec<Option<Value>, A> = Vec::new(self.alloc);
        for heap in 1..self.elements.heap_elements.len().saturating_add(1) {
            heaps.push(self.heap_value(heap))?;
        }
        let values = ValueTable {
            order,
            rows: self.rows(work)?,
            fold: self.shape.fold,
            inside: self.inside(work)?,
        };
        let claim = ClaimValues {
            code: *code,
            heaps,
            period: 0,
            values,
        };
        if self.obeys(&claim, work)? {
            Ok(Some(claim))
        } else {
            Ok(None)
        }
    }
}
