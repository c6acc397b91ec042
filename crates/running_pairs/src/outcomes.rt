//! Outcomes of elements beside counts of two letters.
use crate::actions::Actions;
use crate::folds::Fold;
use crate::letters::{CHANGES, Letters, downs, ups};
use crate::lists::Lists;
use crate::numbers::{NONE, at, byte, heap_weight, places_by_size, put_byte, rest, share};
use quotient_search::{Halt, Work};
use std::alloc::Allocator;

/// How far beyond its tops a fold's places are listed.
const BEYOND: usize = 40;

/// The outcome P.
const LOST: u8 = 1;

/// The outcomes of elements at places, as moves lead from the lightest position of each to others.
#[derive(Drop)]
pub struct Outcomes<A: Allocator> {
    /// How many places there are, and the counts of each.
    pub places: usize,
    pub downs: Vec<usize, A>,
    pub ups: Vec<usize, A>,
    /// The places of all counts up to the width.
    numbers: Vec<usize, A>,
    width: usize,
    /// For each element what moves in its lightest word lead to, and what moves in one of the pair's
    /// heaps beside it do.
    pub within: Lists<A>,
    pub falling: Lists<A>,
    pub rising: Lists<A>,
    /// The outcomes, the elements one after another.
    pub bytes: Vec<u8, A>,
}

/// What a letter weighs, and 0 where there is none.
pub fn letter_weight<A: Allocator>(letters: &Letters<A>, letter: usize) -> usize {
    if letter == NONE {
        0
    } else {
        heap_weight(letters.heap(letter))
    }
}

impl<A: Allocator + Copy> Outcomes<A> {
    /// Of all elements at all places of a fold.
    pub fn new(
        alloc: A,
        letters: &Letters<A>,
        actions: &Actions<A>,
        fold: Fold,
        work: &mut Work,
    ) -> Result<Outcomes<A>, Halt> {
        let width = fold.down_top.max(fold.up_top).saturating_add(BEYOND);
        let places = fold.places();
        let mut outcomes = Outcomes {
            places,
            downs: Vec::new(alloc),
            ups: Vec::new(alloc),
            numbers: Vec::new(alloc),
            width,
            within: Lists::new(alloc),
            falling: Lists::new(alloc),
            rising: Lists::new(alloc),
            bytes: vec![in alloc; 0u8; places.saturating_mul(actions.count())]?,
        };
        work.spend(width.saturating_mul(width).saturating_mul(8))?;
        outcomes.list_places(fold)?;
        outcomes.list_moves(alloc, letters, actions, work)?;
        outcomes.settle(alloc, letters, actions, work)?;
        Ok(outcomes)
    }

    /// Lists what moves lead to.
    fn list_moves(
        &mut self,
        alloc: A,
        letters: &Letters<A>,
        actions: &Actions<A>,
        work: &mut Work,
    ) -> Result<(), Halt> {
        self.within.close()?;
        for element in 1..actions.count() {
            let parent = at(&actions.parents, element);
            let heap = letters.heap(at(&actions.lasts, element));
            let mut before: Vec<usize, A> = Vec::new(alloc);
            before.extend_from_slice(self.within.list(parent))?;
            let count = before.len().saturating_add(letters.options(heap));
            work.spend(count.saturating_mul(count))?;
            for found in before.iter() {
                self.within
                    .add_new(actions.beside(letters, *found, heap, 0))?;
            }
            add_moves(letters, actions, parent, heap, &mut self.within)?;
            self.within.close()?;
        }
        for element in 0..actions.count() {
            work.spend(CHANGES)?;
            add_moves_of(
                letters,
                actions,
                element,
                letters.falling,
                &mut self.falling,
            )?;
            add_moves_of(letters, actions, element, letters.rising, &mut self.rising)?;
        }
        Ok(())
    }

    /// Settles all outcomes, the lightest positions first.
    fn settle(
        &mut self,
        alloc: A,
        letters: &Letters<A>,
        actions: &Actions<A>,
        work: &mut Work,
    ) -> Result<(), Halt> {
        let falling = letter_weight(letters, letters.falling);
        let rising = letter_weight(letters, letters.rising);
        let mut weights: Vec<usize, A> = Vec::new(alloc);
        for element in 0..actions.count() {
            for place in 0..self.places {
                let own = at(&actions.weights, element);
                let down = at(&self.downs, place).wrapping_mul(falling);
                let up = at(&self.ups, place).wrapping_mul(rising);
                weights.push(own.wrapping_add(down).wrapping_add(up))?;
            }
        }
        let sorted = places_by_size(alloc, &weights)?;
        for state in sorted.iter() {
            let element = share(*state, self.places);
            work.spend(self.within.list(element).len().saturating_add(8))?;
            let outcome = self.outcome(element, rest(*state, self.places));
            put_byte(&mut self.bytes, *state, outcome);
        }
        Ok(())
    }
}

/// Adds what moves in a heap beside an element lead to.
fn add_moves<A: Allocator>(
    letters: &Letters<A>,
    actions: &Actions<A>,
    element: usize,
    heap: usize,
    lists: &mut Lists<A>,
) -> Result<(), Halt> {
    for option in 0..letters.options(heap) {
        lists.add_new(actions.move_of(letters, element, heap, option))?;
    }
    Ok(())
}

/// Adds a list of what moves in a letter's heap beside an element lead to.
fn add_moves_of<A: Allocator>(
    letters: &Letters<A>,
    actions: &Actions<A>,
    element: usize,
    letter: usize,
    lists: &mut Lists<A>,
) -> Result<(), Halt> {
    if letter != NONE {
        add_moves(letters, actions, element, letters.heap(letter), lists)?;
    }
    lists.close()
}

impl<A: Allocator> Outcomes<A> {
    /// Lists the places, and those of all counts.
    fn list_places(&mut self, fold: Fold) -> Result<(), Halt> {
        for down in 0..fold.down_top.saturating_add(1) {
            for up in 0..fold.up_top.saturating_add(1) {
                if fold.is_place(down, up) {
                    self.downs.push(down)?;
                    self.ups.push(up)?;
                }
            }
        }
        for down in 0..self.width {
            for up in 0..self.width {
                self.numbers.push(fold.number(fold.place(down, up)))?;
            }
        }
        Ok(())
    }

    /// The place of counts.
    #[inline]
    pub fn place(&self, down: usize, up: usize) -> usize {
        at(
            &self.numbers,
            down.wrapping_mul(self.width).wrapping_add(up),
        )
    }

    /// The outcome of an element at a place.
    #[inline]
    pub fn get(&self, element: usize, place: usize) -> u8 {
        byte(
            &self.bytes,
            element.wrapping_mul(self.places).wrapping_add(place),
        )
    }

    /// Whether some of what moves lead to is lost, beside counts.
    pub fn has_lost(&self, moves: &[usize], down: usize, up: usize) -> bool {
        for found in moves.iter() {
            let place = self.place(
                down.wrapping_add(downs(*found)),
                up.wrapping_add(ups(*found)),
            );
            if self.get(*found / CHANGES, place) == LOST {
                return true;
            }
        }
        false
    }

    /// The outcome at a place of a position, by what moves lead to: within what isn't counted, and in
    /// the heaps that are.
    pub fn outcome_by(
        &self,
        within: &[usize],
        falling: &[usize],
        rising: &[usize],
        place: usize,
    ) -> u8 {
        let (down, up) = (at(&self.downs, place), at(&self.ups, place));
        if self.has_lost(within, down, up)
            || down != 0 && self.has_lost(falling, down.wrapping_sub(1), up)
            || up != 0 && self.has_lost(rising, down, up.wrapping_sub(1))
        {
            return 0;
        }
        let is_movable = !within.is_empty()
            || down != 0 && !falling.is_empty()
            || up != 0 && !rising.is_empty();
        u8::from(is_movable)
    }

    fn outcome(&self, element: usize, place: usize) -> u8 {
        self.outcome_by(
            self.within.list(element),
            self.falling.list(element),
            self.rising.list(element),
            place,
        )
    }
}
