//! The lightest step at which outcomes fail.
use crate::actions::Actions;
use crate::letters::{Letters, downs, ups};
use crate::numbers::{NONE, at, heap_weight};
use crate::outcomes::{Outcomes, letter_weight};
use quotient_search::{Halt, Work};
use std::alloc::Allocator;

/// A heap more beside the lightest position of an element and a place, whose outcome isn't that of the
/// element and the place to which it leads. The weight is `NONE` where there is none.
#[derive(Clone, Copy)]
pub struct Failing {
    pub weight: usize,
    pub element: usize,
    pub heap: usize,
    pub place: usize,
}

/// What is looked at, the lightest failing step so far, and what moves lead to at the step that is
/// looked at.
#[derive(Drop)]
struct Steps<'a, A: Allocator> {
    letters: &'a Letters<A>,
    actions: &'a Actions<A>,
    outcomes: &'a Outcomes<A>,
    best: Failing,
    within: Vec<usize, A>,
    falling: Vec<usize, A>,
    rising: Vec<usize, A>,
}

impl<A: Allocator> Steps<'_, A> {
    /// Whether the heap is the last letter of the lightest word to which the step leads.
    fn is_own(&self, element: usize, heap: usize, target: usize) -> bool {
        let word = self.letters.generators.word(heap);
        target != 0
            && word.len() == 1
            && at(word, 0) == at(&self.actions.lasts, target)
            && at(&self.actions.parents, target) == element
            && self.letters.change_of(heap) == 0
    }

    /// Lists what moves at a step lead to.
    fn list_moves(&mut self, element: usize, heap: usize) -> Result<(), Halt> {
        let own = self.letters.change_of(heap);
        self.within.clear();
        self.falling.clear();
        self.rising.clear();
        for option in 0..self.letters.options(heap) {
            self.within
                .push(self.actions.move_of(self.letters, element, heap, option))?;
        }
        for found in self.outcomes.within.list(element).iter() {
            self.within
                .push(self.actions.beside(self.letters, *found, heap, own))?;
        }
        for found in self.outcomes.falling.list(element).iter() {
            self.falling
                .push(self.actions.beside(self.letters, *found, heap, own))?;
        }
        for found in self.outcomes.rising.list(element).iter() {
            self.rising
                .push(self.actions.beside(self.letters, *found, heap, own))?;
        }
        Ok(())
    }

    /// Looks at a step at all places.
    fn look(&mut self, element: usize, heap: usize, target: usize, weight: usize) {
        let own = self.letters.change_of(heap);
        let falling = letter_weight(self.letters, self.letters.falling);
        let rising = letter_weight(self.letters, self.letters.rising);
        for place in 0..self.outcomes.places {
            let down = at(&self.outcomes.downs, place);
            let up = at(&self.outcomes.ups, place);
            let all = weight
                .wrapping_add(down.wrapping_mul(falling))
                .wrapping_add(up.wrapping_mul(rising));
            if all >= self.best.weight {
                continue;
            }
            let found = self
                .outcomes
                .outcome_by(&self.within, &self.falling, &self.rising, place);
            let to = self
                .outcomes
                .place(down.wrapping_add(downs(own)), up.wrapping_add(ups(own)));
            if found != self.outcomes.get(target, to) {
                self.best = Failing {
                    weight: all,
                    element,
                    heap,
                    place,
                };
            }
        }
    }

    /// Looks at one heap more beside all elements.
    fn look_at_heap(&mut self, heap: usize, work: &mut Work) -> Result<(), Halt> {
        for element in 0..self.actions.count() {
            let weight = at(&self.actions.weights, element).saturating_add(heap_weight(heap));
            if weight >= self.best.weight {
                break;
            }
            let target = self
                .actions
                .behind(element, self.letters.generators.word(heap));
            if !self.is_own(element, heap, target) {
                self.list_moves(element, heap)?;
                work.spend(self.outcomes.places.saturating_mul(16))?;
                work.spend(self.within.len().saturating_mul(16))?;
                self.look(element, heap, target, weight);
            }
        }
        Ok(())
    }
}

/// The lightest step that fails.
pub fn lightest_failing<A: Allocator + Copy>(
    alloc: A,
    letters: &Letters<A>,
    actions: &Actions<A>,
    outcomes: &Outcomes<A>,
    work: &mut Work,
) -> Result<Failing, Halt> {
    let mut steps = Steps {
        letters,
        actions,
        outcomes,
        best: Failing {
            weight: NONE,
            element: 0,
            heap: 0,
            place: 0,
        },
        within: Vec::new(alloc),
        falling: Vec::new(alloc),
        rising: Vec::new(alloc),
    };
    for heap in 1..letters.generators.last().saturating_add(1) {
        if letters.generators.is_kept(heap) {
            steps.look_at_heap(heap, work)?;
        }
    }
    Ok(steps.best)
}
