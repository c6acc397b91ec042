//! Finite commutative monoids, known by what letters do.
use crate::letters::{CHANGES, Letters, change, downs, ups};
use crate::numbers::{NONE, at, heap_weight, put};
use quotient_search::{Halt, Work};
use std::alloc::Allocator;

/// The most that a lightest word weighs.
const MOST_WEIGHT: usize = 6000;

/// Elements, the lighter ones first, each with the element to which each letter leads and with its
/// lightest word. The letters of the pair lead nowhere.
#[derive(Drop)]
pub struct Actions<A: Allocator> {
    letters: usize,
    next: Vec<usize, A>,
    /// For each element that of its lightest word without the last letter, that letter, and the weight.
    pub parents: Vec<usize, A>,
    pub lasts: Vec<usize, A>,
    pub weights: Vec<usize, A>,
}

/// A walk from the first state of a graph, the lightest states first.
#[derive(Drop)]
struct Walk<A: Allocator> {
    /// For each state its element, or `NONE`.
    numbers: Vec<usize, A>,
    /// For each element its state.
    states: Vec<usize, A>,
    /// For each weight the last try with it.
    heads: Vec<usize, A>,
    /// The tries: the state, the element before it, the letter, and the try before it of this weight.
    tried: Vec<usize, A>,
    parents: Vec<usize, A>,
    lasts: Vec<usize, A>,
    links: Vec<usize, A>,
}

impl<A: Allocator> Walk<A> {
    /// Tries a state at a weight.
    fn add(&mut self, state: usize, parent: usize, last: usize, weight: usize) -> Result<(), Halt> {
        if weight >= self.heads.len() {
            return Err(Halt::TooLarge);
        }
        self.links.push(at(&self.heads, weight))?;
        put(&mut self.heads, weight, self.tried.len());
        self.tried.push(state)?;
        self.parents.push(parent)?;
        self.lasts.push(last)?;
        Ok(())
    }
}

impl<A: Allocator> Actions<A> {
    /// How many elements there are.
    pub fn count(&self) -> usize {
        self.weights.len()
    }

    /// Where a letter leads.
    #[inline]
    pub fn step(&self, element: usize, letter: usize) -> usize {
        at(
            &self.next,
            element.wrapping_mul(self.letters).wrapping_add(letter),
        )
    }

    /// Where letters lead, one after another.
    pub fn behind(&self, element: usize, word: &[usize]) -> usize {
        let mut found = element;
        for letter in word.iter() {
            found = self.step(found, *letter);
        }
        found
    }

    /// How many letters it was made for.
    pub fn letters(&self) -> usize {
        self.letters
    }

    /// Where the letters lead, the elements one after another.
    pub fn steps(&self) -> &[usize] {
        &self.next
    }

    /// How often a letter occurs in an element's lightest word.
    pub fn occurrences(&self, element: usize, letter: usize) -> usize {
        let mut count = 0usize;
        let mut left = element;
        for _ in 0..element.saturating_add(1) {
            if left == 0 {
                break;
            }
            count = count.wrapping_add(usize::from(at(&self.lasts, left) == letter));
            left = at(&self.parents, left);
        }
        count
    }

    /// The element and the change to which an option of a heap leads from an element, in one number.
    pub fn move_of(
        &self,
        letters: &Letters<A>,
        element: usize,
        heap: usize,
        option: usize,
    ) -> usize {
        let mut found = element;
        let mut down = 0usize;
        let mut up = 0usize;
        for i in 0..3usize {
            let part = letters.part(heap, option, i);
            if part != 0 {
                found = self.behind(found, letters.generators.word(part));
                let own = letters.change_of(part);
                down = down.wrapping_add(downs(own));
                up = up.wrapping_add(ups(own));
            }
        }
        found.wrapping_mul(CHANGES).wrapping_add(change(down, up))
    }

    /// The same beside one more heap.
    pub fn beside(&self, letters: &Letters<A>, found: usize, heap: usize, own: usize) -> usize {
        let element = self.behind(found / CHANGES, letters.generators.word(heap));
        let down = downs(found).wrapping_add(downs(own));
        let up = ups(found).wrapping_add(ups(own));
        element.wrapping_mul(CHANGES).wrapping_add(change(down, up))
    }

    /// Takes what was tried at a weight.
    fn take(
        &mut self,
        letters: &Letters<A>,
        steps: &[usize],
        walk: &mut Walk<A>,
        weight: usize,
        acting: &[usize],
    ) -> Result<(), Halt> {
        let mut tried = at(&walk.heads, weight);
        for _ in 0..walk.tried.len() {
            if tried == NONE {
                break;
            }
            let state = at(&walk.tried, tried);
            if at(&walk.numbers, state) == NONE {
                self.take_state(letters, steps, walk, tried, weight, acting)?;
            }
            tried = at(&walk.links, tried);
        }
        Ok(())
    }

    /// Takes a state as the next element, and tries what is behind it.
    fn take_state(
        &mut self,
        letters: &Letters<A>,
        steps: &[usize],
        walk: &mut Walk<A>,
        tried: usize,
        weight: usize,
        acting: &[usize],
    ) -> Result<(), Halt> {
        let state = at(&walk.tried, tried);
        let element = self.weights.len();
        put(&mut walk.numbers, state, element);
        walk.states.push(state)?;
        self.parents.push(at(&walk.parents, tried))?;
        self.lasts.push(at(&walk.lasts, tried))?;
        self.weights.push(weight)?;
        for letter in acting.iter() {
            let next = at(
                steps,
                state.wrapping_mul(self.letters).wrapping_add(*letter),
            );
            if at(&walk.numbers, next) == NONE {
                let more = heap_weight(letters.heap(*letter));
                walk.add(next, element, *letter, weight.saturating_add(more))?;
            }
        }
        Ok(())
    }

    /// Notes where the letters lead.
    fn note_steps(
        &mut self,
        steps: &[usize],
        walk: &Walk<A>,
        acting: &[usize],
    ) -> Result<(), Halt> {
        for element in 0..walk.states.len() {
            let from = at(&walk.states, element).wrapping_mul(self.letters);
            for letter in 0..self.letters {
                let next = if acting.contains(&letter) {
                    at(&walk.numbers, at(steps, from.wrapping_add(letter)))
                } else {
                    element
                };
                self.next.push(next)?;
            }
        }
        Ok(())
    }
}

/// What the letters do that are used and aren't of the pair, in the part of a graph that is behind a
/// state. The graph has for each state the states to which the letters lead.
pub fn actions_behind<A: Allocator + Copy>(
    alloc: A,
    letters: &Letters<A>,
    steps: &[usize],
    states: usize,
    first: usize,
    work: &mut Work,
) -> Result<Actions<A>, Halt> {
    work.spend(steps.len().saturating_mul(16))?;
    let mut acting: Vec<usize, A> = Vec::new(alloc);
    for letter in 0..letters.count() {
        if letters.is_used(letter) && !letters.is_running(letter) {
            acting.push(letter)?;
        }
    }
    let mut walk = Walk {
        numbers: vec![in alloc; NONE; states]?,
        states: Vec::new(alloc),
        heads: vec![in alloc; NONE; MOST_WEIGHT]?,
        tried: Vec::new(alloc),
        parents: Vec::new(alloc),
        lasts: Vec::new(alloc),
        links: Vec::new(alloc),
    };
    let mut actions = Actions {
        letters: letters.count(),
        next: Vec::new(alloc),
        parents: Vec::new(alloc),
        lasts: Vec::new(alloc),
        weights: Vec::new(alloc),
    };
    walk.add(first, 0, NONE, 0)?;
    for weight in 0..MOST_WEIGHT {
        actions.take(letters, steps, &mut walk, weight, &acting)?;
    }
    actions.note_steps(steps, &walk, &acting)?;
    Ok(actions)
}
