//! Where the outcomes beside counts lie.
use crate::base::Base;
use quotient_search::{Halt, Work};
use running_pairs::{
    Generators, add_up, at, greatest, heap_weight, places_by_size, put, rest, share,
};
use std::alloc::Allocator;

/// The most outcomes that are kept.
const MOST_OUTCOMES: usize = 6_000_000;

/// How much heavier a try of a limit is than the one before.
const STEP: usize = 4;

/// Counts of the heaps that count, all those that weigh no more than the limit, the lighter ones
/// first.
#[derive(Drop)]
pub struct Layout<A: Allocator> {
    /// How many heaps count.
    pub rank: usize,
    /// The weights of these heaps.
    pub heap_weights: Vec<usize, A>,
    /// How far two places lie apart whose counts of a heap differ by one.
    pub strides: Vec<usize, A>,
    /// How many places there are.
    pub size: usize,
    /// What elements and counts together weigh at most.
    pub limit: usize,
    /// The places of the counts.
    pub places: Vec<usize, A>,
    /// The weights of the counts.
    pub weights: Vec<usize, A>,
    /// The counts themselves, `rank` of them after another.
    pub counts: Vec<usize, A>,
    /// For each weight how many counts are lighter.
    pub starts: Vec<usize, A>,
}

/// How many counts of so many heaps are wanted beside an element.
fn wanted(rank: usize, elements: usize) -> usize {
    match rank {
        2 => 300,
        3 => share(30_000, elements).max(1500),
        _ => share(80_000, elements).max(5000),
    }
}

impl<A: Allocator + Copy> Layout<A> {
    /// For a base and the heaps that count.
    pub fn new(
        alloc: A,
        base: &Base<A>,
        generators: &Generators<A>,
        counted: &[usize],
        work: &mut Work,
    ) -> Result<Layout<A>, Halt> {
        let mut layout = Layout {
            rank: counted.len(),
            heap_weights: Vec::new(alloc),
            strides: Vec::new(alloc),
            size: 1,
            limit: 0,
            places: Vec::new(alloc),
            weights: Vec::new(alloc),
            counts: Vec::new(alloc),
            starts: Vec::new(alloc),
        };
        for letter in counted.iter() {
            let heap = at(&generators.heaps, *letter);
            layout.heap_weights.push(heap_weight(heap))?;
        }
        layout.set_limit(base.count(), greatest(&base.weights));
        layout.set_strides()?;
        work.spend(layout.size.saturating_mul(layout.rank))?;
        layout.list_counts(alloc)?;
        Ok(layout)
    }

    /// Lists the counts, the lighter ones first.
    fn list_counts(&mut self, alloc: A) -> Result<(), Halt> {
        let mut weights: Vec<usize, A> = Vec::new(alloc);
        let mut places: Vec<usize, A> = Vec::new(alloc);
        for place in 0..self.size {
            let weight = self.weight(place);
            if weight <= self.limit {
                weights.push(weight)?;
                places.push(place)?;
            }
        }
        let sorted = places_by_size(alloc, &weights)?;
        for i in sorted.iter() {
            self.add_counts(at(&places, *i), at(&weights, *i))?;
        }
        self.list_starts(alloc)
    }

    /// Lists how many counts are lighter than each weight.
    fn list_starts(&mut self, alloc: A) -> Result<(), Halt> {
        let mut starts: Vec<usize, A> = vec![in alloc; 0usize; self.limit.saturating_add(2)]?;
        for weight in self.weights.iter() {
            let next = weight.wrapping_add(1);
            let count = at(&starts, next);
            put(&mut starts, next, count.wrapping_add(1));
        }
        add_up(&mut starts);
        self.starts = starts;
        Ok(())
    }
}

impl<A: Allocator> Layout<A> {
    /// How many places there would be under a limit.
    fn size_under(&self, limit: usize) -> usize {
        let mut size = 1usize;
        for weight in self.heap_weights.iter() {
            size = size.saturating_mul(share(limit, *weight).saturating_add(1));
        }
        size
    }

    /// About how many counts there would be under a limit.
    fn counts_under(&self, limit: usize) -> usize {
        let mut orders = 1usize;
        for i in 0..self.rank {
            orders = orders.saturating_mul(i.saturating_add(1));
        }
        share(self.size_under(limit), orders)
    }

    /// Takes the largest limit that isn't too large, for so many elements up to a weight.
    fn set_limit(&mut self, elements: usize, heaviest: usize) {
        let most = wanted(self.rank, elements);
        for i in 0..10_000usize {
            let counts = i.wrapping_mul(STEP);
            let limit = counts.saturating_add(heaviest);
            let outcomes = self.size_under(limit).saturating_mul(elements);
            if outcomes > MOST_OUTCOMES || self.counts_under(counts) > most {
                break;
            }
            self.limit = limit;
        }
    }

    fn set_strides(&mut self) -> Result<(), Halt> {
        for i in 0..self.rank {
            self.strides.push(self.size)?;
            let most = share(self.limit, at(&self.heap_weights, i));
            self.size = self.size.saturating_mul(most.saturating_add(1));
        }
        Ok(())
    }

    /// The count of a heap at a place.
    pub fn count_at(&self, place: usize, i: usize) -> usize {
        let most = share(self.limit, at(&self.heap_weights, i));
        rest(share(place, at(&self.strides, i)), most.saturating_add(1))
    }

    /// What the counts at a place weigh.
    fn weight(&self, place: usize) -> usize {
        let mut sum = 0usize;
        for i in 0..self.rank {
            let weight = self
                .count_at(place, i)
                .saturating_mul(at(&self.heap_weights, i));
            sum = sum.saturating_add(weight);
        }
        sum
    }

    fn add_counts(&mut self, place: usize, weight: usize) -> Result<(), Halt> {
        self.places.push(place)?;
        self.weights.push(weight)?;
        for i in 0..self.rank {
            let count = self.count_at(place, i);
            self.counts.push(count)?;
        }
        Ok(())
    }

    /// The count of a heap in counts.
    #[inline]
    pub fn count(&self, counts: usize, i: usize) -> usize {
        at(&self.counts, counts.wrapping_mul(self.rank).wrapping_add(i))
    }
}
