//! Outcomes of elements beside counts.
use crate::base::Base;
use crate::layout::Layout;
use heap_options::options;
use octal_code::Code;
use quotient_search::{Halt, HeapQuotient, Work};
use running_pairs::{Generators, Lists, at, byte, put_byte};
use std::alloc::Allocator;

/// An outcome that isn't known.
pub const UNKNOWN: u8 = 2;

/// The outcome P.
pub const LOST: u8 = 1;

/// What is looked at: a wrong quotient, its generators, those that count, the others' elements, and the
/// counts.
#[derive(Drop)]
pub struct View<'a, A: Allocator> {
    pub alloc: A,
    pub quotient: &'a HeapQuotient<A>,
    pub generators: &'a Generators<A>,
    pub counted: &'a [usize],
    pub base: &'a Base<A>,
    pub layout: &'a Layout<A>,
}

/// The outcomes of elements beside counts, one element after another, `UNKNOWN` where they are too
/// heavy.
#[derive(Drop)]
pub struct Outcomes<A: Allocator> {
    bytes: Vec<u8, A>,
    size: usize,
}

/// The options' values: pairs of a base's element, by its number, and of how far counts move.
#[derive(Drop)]
struct Moves<A: Allocator> {
    /// Of the generators.
    of_letters: Lists<A>,
    /// Of the base's elements.
    of_elements: Lists<A>,
}

impl<A: Allocator + Copy> View<'_, A> {
    /// Adds the value of a heap that is left.
    fn add_heap(&self, heap: u64, element: &mut usize, offset: &mut usize) {
        for letter in self.generators.word(heap as usize).iter() {
            self.add_letter(*letter, element, offset);
        }
    }

    fn add_letter(&self, letter: usize, element: &mut usize, offset: &mut usize) {
        match self.place_of(letter) {
            Some(i) => *offset = offset.wrapping_add(at(&self.layout.strides, i)),
            None => {
                let by = at(&self.generators.elements, letter);
                *element = self.quotient.times(*element, by);
            }
        }
    }

    /// The place of a letter among those that count.
    pub fn place_of(&self, letter: usize) -> Option<usize> {
        for (i, counted) in self.counted.iter().enumerate() {
            if *counted == letter {
                return Some(i);
            }
        }
        None
    }

    /// The values of a heap's options.
    fn add_moves_of_heap(
        &self,
        code: &Code,
        heap: usize,
        lists: &mut Lists<A>,
    ) -> Result<(), Halt> {
        for left in options(code, heap as u64) {
            let mut element = 0usize;
            let mut offset = 0usize;
            for part in left.heaps().as_slice().iter() {
                self.add_heap(*part, &mut element, &mut offset);
            }
            lists.add_pair(at(&self.base.numbers, element), offset)?;
        }
        lists.close()
    }

    /// The values of all generators' options.
    fn moves_of_letters(&self, code: &Code, work: &mut Work) -> Result<Lists<A>, Halt> {
        let mut lists = Lists::new(self.alloc);
        for heap in self.generators.heaps.iter() {
            work.spend(heap.saturating_mul(*heap))?;
            self.add_moves_of_heap(code, *heap, &mut lists)?;
        }
        Ok(lists)
    }

    /// Adds pairs, each times an element of the quotient.
    fn add_products(&self, pairs: &[usize], by: usize, lists: &mut Lists<A>) -> Result<(), Halt> {
        for i in 0..pairs.len() / 2 {
            let place = i.wrapping_mul(2);
            let number = self.base.times(self.quotient, at(pairs, place), by);
            lists.add_pair(number, at(pairs, place.wrapping_add(1)))?;
        }
        Ok(())
    }

    /// The values of all options of the base's lightest words.
    fn moves(&self, code: &Code, work: &mut Work) -> Result<Moves<A>, Halt> {
        let of_letters = self.moves_of_letters(code, work)?;
        let mut of_elements = Lists::new(self.alloc);
        of_elements.close()?;
        for number in 1..self.base.count() {
            let letter = at(&self.base.letters, number);
            let parent = at(&self.base.parents, number);
            let mut before: Vec<usize, A> = Vec::new(self.alloc);
            before.extend_from_slice(of_elements.list(parent))?;
            let count = before.len().saturating_add(of_letters.list(letter).len());
            work.spend(count.saturating_mul(count))?;
            self.add_products(
                &before,
                at(&self.generators.elements, letter),
                &mut of_elements,
            )?;
            let by = at(&self.base.elements, parent);
            self.add_products(of_letters.list(letter), by, &mut of_elements)?;
            of_elements.close()?;
        }
        Ok(Moves {
            of_letters,
            of_elements,
        })
    }

    /// All outcomes up to the limit.
    pub fn outcomes(&self, code: &Code, work: &mut Work) -> Result<Outcomes<A>, Halt> {
        let moves = self.moves(code, work)?;
        let size = self.layout.size;
        let count = size.saturating_mul(self.base.count());
        work.spend(count)?;
        let mut outcomes = Outcomes {
            bytes: vec![in self.alloc; UNKNOWN; count]?,
            size,
        };
        for weight in 0..self.layout.limit.saturating_add(1) {
            work.spend(self.base.count())?;
            self.settle_weight(&moves, weight, &mut outcomes, work)?;
        }
        Ok(outcomes)
    }

    /// Settles the outcomes of what weighs so much.
    fn settle_weight(
        &self,
        moves: &Moves<A>,
        weight: usize,
        outcomes: &mut Outcomes<A>,
        work: &mut Work,
    ) -> Result<(), Halt> {
        for number in 0..self.base.count() {
            let own = at(&self.base.weights, number);
            if own > weight {
                break;
            }
            let beside = weight.wrapping_sub(own);
            let from = at(&self.layout.starts, beside);
            let to = at(&self.layout.starts, beside.wrapping_add(1));
            for counts in from..to {
                let place = at(&self.layout.places, counts);
                work.spend(moves.of_elements.list(number).len())?;
                let outcome = self.outcome(moves, number, place, outcomes);
                outcomes.set(number, place, outcome);
            }
        }
        Ok(())
    }

    /// The outcome of an element beside the counts at a place, by those of the options.
    fn outcome(&self, moves: &Moves<A>, number: usize, place: usize, outcomes: &Outcomes<A>) -> u8 {
        let own = moves.of_elements.list(number);
        if outcomes.has_lost(own, place) {
            return 0;
        }
        let mut is_movable = !own.is_empty();
        let by = at(&self.base.elements, number);
        for (i, letter) in self.counted.iter().enumerate() {
            if self.layout.count_at(place, i) == 0 {
                continue;
            }
            let from = place.wrapping_sub(at(&self.layout.strides, i));
            let pairs = moves.of_letters.list(*letter);
            is_movable = is_movable || !pairs.is_empty();
            if self.has_lost_beside(pairs, by, from, outcomes) {
                return 0;
            }
        }
        u8::from(is_movable)
    }

    /// Whether some pair, times an element, is lost beside the counts at a place.
    fn has_lost_beside(
        &self,
        pairs: &[usize],
        by: usize,
        place: usize,
        outcomes: &Outcomes<A>,
    ) -> bool {
        for i in 0..pairs.len() / 2 {
            let at_pair = i.wrapping_mul(2);
            let number = self.base.times(self.quotient, at(pairs, at_pair), by);
            let to = place.wrapping_add(at(pairs, at_pair.wrapping_add(1)));
            if outcomes.get(number, to) == LOST {
                return true;
            }
        }
        false
    }
}

impl<A: Allocator> Outcomes<A> {
    /// The outcome of an element beside the counts at a place.
    #[inline]
    pub fn get(&self, number: usize, place: usize) -> u8 {
        byte(
            &self.bytes,
            number.wrapping_mul(self.size).wrapping_add(place),
        )
    }

    fn set(&mut self, number: usize, place: usize, outcome: u8) {
        let to = number.wrapping_mul(self.size).wrapping_add(place);
        put_byte(&mut self.bytes, to, outcome);
    }

    /// Whether some pair is lost beside the counts at a place.
    fn has_lost(&self, pairs: &[usize], place: usize) -> bool {
        for i in 0..pairs.len() / 2 {
            let at_pair = i.wrapping_mul(2);
            let to = place.wrapping_add(at(pairs, at_pair.wrapping_add(1)));
            if self.get(at(pairs, at_pair), to) == LOST {
                return true;
            }
        }
        false
    }
}
