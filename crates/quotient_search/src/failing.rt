//! The lightest position at which the rule fails.
use crate::cells::bit;
use crate::chains::{Chains, NONE};
use crate::dead::{Dead, dead_of_heap, dead_of_sum, is_empty, is_within, words_of};
use crate::inside::{cost_of_heap, lightest_inside};
use crate::quotient::{HeapQuotient, heap_weight};
use crate::sets::{MOST_WORDS, Sets};
use crate::work::{Halt, Means, Work};
use std::alloc::Allocator;

/// The most weight that is looked at, and the most positions.
pub const MOST_WEIGHT: usize = 2000;

const MOST_POSITIONS: usize = 300_000;

/// A position, its heaps in any order, and its weight.
#[derive(Drop)]
pub struct Failing<A: Allocator> {
    pub weight: usize,
    pub heaps: Vec<usize, A>,
}

/// Positions by weight, each with its value, its dead contexts and how it was made.
#[derive(Drop)]
struct SearchByWeight<A: Allocator> {
    positions: Sets<A>,
    /// The position that one was made from by adding a heap, and that heap.
    made: Vec<(usize, usize), A>,
    /// The positions of each weight.
    waiting: Chains<A>,
    /// Those of each value that were looked at.
    seen: Chains<A>,
    /// The heaps that are added.
    generators: Sets<A>,
}

/// Sets that are written anew for each position.
#[derive(Drop)]
struct Scratch<A: Allocator> {
    set: Vec<u64, A>,
    sum: Vec<u64, A>,
}

impl<A: Allocator + Copy> SearchByWeight<A> {
    /// The single heaps, for weights below `most`.
    fn new(alloc: A, quotient: &HeapQuotient<A>, most: usize) -> Result<SearchByWeight<A>, Halt> {
        let waiting = Chains::new(alloc, most)?;
        let seen = Chains::new(alloc, quotient.order)?;
        let words = words_of(quotient);
        Ok(SearchByWeight {
            positions: Sets::new(alloc, words),
            made: Vec::new(alloc),
            waiting,
            seen,
            generators: Sets::new(alloc, words),
        })
    }

    /// Adds the heaps that have options.
    fn begin(&mut self, means: &mut Means<'_, A>, quotient: &HeapQuotient<A>) -> Result<(), Halt> {
        for n in 1..quotient.heaps.len().saturating_add(1) {
            means.work.spend(cost_of_heap(quotient, n).saturating_add(self.generators.size()))?;
            if !quotient.heap_moves(n).is_empty() {
                let set = dead_of_heap(means.alloc, quotient, n)?;
                self.add_heap(quotient, n, &set)?;
            }
        }
        Ok(())
    }

    /// The heaps of a position.
    fn heaps_of(&self, alloc: A, position: usize) -> Result<Vec<usize, A>, Halt> {
        let mut heaps: Vec<usize, A> = Vec::new(alloc);
        self.push_heaps(position, &mut heaps)?;
        Ok(heaps)
    }

    /// The lightest position at which the rule fails, and its weight.
    fn find(
        &mut self,
        means: &mut Means<'_, A>,
        quotient: &HeapQuotient<A>,
    ) -> Result<Option<(usize, usize)>, Halt> {
        let sum: Vec<u64, A> = vec![in means.alloc; 0u64; self.positions.words()]?;
        let mut scratch = Scratch {
            set: Vec::new(means.alloc),
            sum,
        };
        self.find_with(quotient, &mut scratch, &mut means.work)
    }
}

impl<A: Allocator> SearchByWeight<A> {
    fn find_with(
        &mut self,
        quotient: &HeapQuotient<A>,
        scratch: &mut Scratch<A>,
        work: &mut Work,
    ) -> Result<Option<(usize, usize)>, Halt> {
        for weight in 0..self.waiting.lists() {
            if let Some(position) = self.look(quotient, weight, scratch, work)? {
                return Ok(Some((weight, position)));
            }
        }
        Ok(None)
    }

    /// Looks at the positions of one weight. Answers the first one at which the rule fails.
    fn look(
        &mut self,
        quotient: &HeapQuotient<A>,
        weight: usize,
        scratch: &mut Scratch<A>,
        work: &mut Work,
    ) -> Result<Option<usize>, Halt> {
        let mut position = self.waiting.first(weight);
        for _ in 0..self.positions.len() {
            if position == NONE {
                break;
            }
            if self.look_at(quotient, weight, position, scratch, work)? {
                return Ok(Some(position));
            }
            position = self.waiting.after(position);
        }
        Ok(None)
    }

    /// Looks at a position. Answers whether the rule fails at it.
    fn look_at(
        &mut self,
        quotient: &HeapQuotient<A>,
        weight: usize,
        position: usize,
        scratch: &mut Scratch<A>,
        work: &mut Work,
    ) -> Result<bool, Halt> {
        scratch.set.clear();
        scratch.set.extend_from_slice(self.positions.set(position))?;
        let value = self.positions.number(position);
        if self.is_covered(value, &scratch.set, work)? {
            return Ok(false);
        }
        if bit(&scratch.set, 0) {
            return Ok(true);
        }
        self.seen.link(position, value);
        self.add_heaps(quotient, weight, position, scratch, work)?;
        Ok(false)
    }

    /// Adds the heap n with its dead contexts, unless another one does as well.
    fn add_heap(&mut self, quotient: &HeapQuotient<A>, n: usize, set: &[u64]) -> Result<(), Halt> {
        let value = quotient.heap(n);
        if is_empty(set) || self.has_generator(quotient, value, set) {
            return Ok(());
        }
        self.generators.push(n, set)?;
        self.push(heap_weight(n) as usize, value, set, (NONE, n))
    }

    /// Whether one of the heaps that are added has this value and as many dead contexts.
    fn has_generator(&self, quotient: &HeapQuotient<A>, value: usize, set: &[u64]) -> bool {
        for generator in 0..self.generators.len() {
            if quotient.heap(self.generators.number(generator)) == value
                && is_within(set, self.generators.set(generator))
            {
                return true;
            }
        }
        false
    }

    /// Adds the heaps of a position to a list.
    fn push_heaps(&self, position: usize, heaps: &mut Vec<usize, A>) -> Result<(), Halt> {
        let mut position = position;
        for _ in 0..self.made.len() {
            let Some((from, heap)) = self.made.get(position) else {
                break;
            };
            heaps.push(*heap)?;
            position = *from;
        }
        Ok(())
    }

    /// Adds a position, where its weight is below the most.
    fn push(
        &mut self,
        weight: usize,
        value: usize,
        set: &[u64],
        made: (usize, usize),
    ) -> Result<(), Halt> {
        if weight >= self.waiting.lists() {
            return Ok(());
        }
        if self.positions.len() > MOST_POSITIONS || self.positions.size() > MOST_WORDS {
            return Err(Halt::Work);
        }
        let position = self.positions.len();
        self.waiting.add()?;
        self.waiting.link(position, weight);
        self.positions.push(value, set)?;
        self.made.push(made)?;
        self.seen.add()
    }

    /// Whether a position that was looked at has this value and as many dead contexts.
    fn is_covered(&self, value: usize, set: &[u64], work: &mut Work) -> Result<bool, Halt> {
        let mut position = self.seen.first(value);
        for _ in 0..self.positions.len() {
            if position == NONE {
                break;
            }
            work.spend(self.positions.words())?;
            if is_within(set, self.positions.set(position)) {
                return Ok(true);
            }
            position = self.seen.after(position);
        }
        Ok(false)
    }

    /// Adds each heap to a position, whose set is written.
    fn add_heaps(
        &mut self,
        quotient: &HeapQuotient<A>,
        weight: usize,
        position: usize,
        scratch: &mut Scratch<A>,
        work: &mut Work,
    ) -> Result<(), Halt> {
        for generator in 0..self.generators.len() {
            let heap = self.generators.number(generator);
            let above = weight.saturating_add(heap_weight(heap) as usize);
            if above >= self.waiting.lists() {
                break;
            }
            work.spend(quotient.order)?;
            self.add_sum(quotient, above, position, generator, scratch, work)?;
        }
        Ok(())
    }

    /// Adds a heap to a position, where the sum has dead contexts that no other one has.
    fn add_sum(
        &mut self,
        quotient: &HeapQuotient<A>,
        above: usize,
        position: usize,
        generator: usize,
        scratch: &mut Scratch<A>,
        work: &mut Work,
    ) -> Result<(), Halt> {
        let heap = self.generators.number(generator);
        let value = self.positions.number(position);
        let other = quotient.heap(heap);
        let x = Dead {
            value,
            set: &scratch.set,
        };
        let y = Dead {
            value: other,
            set: self.generators.set(generator),
        };
        if !dead_of_sum(quotient, x, y, &mut scratch.sum) {
            return Ok(());
        }
        let product = quotient.times(value, other);
        if self.is_covered(product, &scratch.sum, work)? {
            return Ok(());
        }
        self.push(above, product, &scratch.sum, (position, heap))
    }
}

/// The lightest position that is dead with nothing beside it, of those that weigh less than `most`.
fn lightest_dead<A: Allocator + Copy>(
    means: &mut Means<'_, A>,
    quotient: &HeapQuotient<A>,
    most: usize,
) -> Result<Option<Failing<A>>, Halt> {
    let mut search = SearchByWeight::new(means.alloc, quotient, most)?;
    let found = found_by(means, quotient, &mut search);
    drop(search);
    found
}

/// The lightest position that a search finds.
fn found_by<A: Allocator + Copy>(
    means: &mut Means<'_, A>,
    quotient: &HeapQuotient<A>,
    search: &mut SearchByWeight<A>,
) -> Result<Option<Failing<A>>, Halt> {
    search.begin(means, quotient)?;
    match search.find(means, quotient)? {
        Some((weight, position)) => Ok(Some(Failing {
            weight,
            heaps: search.heaps_of(means.alloc, position)?,
        })),
        None => Ok(None),
    }
}

/// The lightest position at which the rule fails, where one was found.
pub fn lightest_failing<A: Allocator + Copy>(
    means: &mut Means<'_, A>,
    quotient: &HeapQuotient<A>,
) -> Result<Option<Failing<A>>, Halt> {
    let inside = lightest_inside(means, quotient)?;
    let most = match &inside {
        Some(failing) => failing.weight,
        None => MOST_WEIGHT,
    };
    match lightest_dead(means, quotient, most)? {
        None => Ok(inside),
        found => Ok(found),
    }
}
