//! Shapes of claims: folds of counts, and a track.
use quotient_search::Halt;
use running_pairs::{Fold, at, rest};
use std::alloc::Allocator;

/// For each heap that counts, from where on its counts come again in the monoid and after how many,
/// and what it adds to the two counts of the track.
#[derive(Drop)]
pub struct Shape<A: Allocator> {
    pub leads: Vec<usize, A>,
    pub periods: Vec<usize, A>,
    pub downs: Vec<usize, A>,
    pub ups: Vec<usize, A>,
    pub fold: Fold,
}

impl<A: Allocator + Copy> Shape<A> {
    /// With a fold, and no heap yet.
    pub fn new(alloc: A, fold: Fold) -> Shape<A> {
        Shape {
            leads: Vec::new(alloc),
            periods: Vec::new(alloc),
            downs: Vec::new(alloc),
            ups: Vec::new(alloc),
            fold,
        }
    }
}

impl<A: Allocator> Shape<A> {
    /// Adds the next heap.
    pub fn add(&mut self, lead: usize, period: usize, down: usize, up: usize) -> Result<(), Halt> {
        self.leads.push(lead)?;
        self.periods.push(period)?;
        self.downs.push(down)?;
        self.ups.push(up)?;
        Ok(())
    }

    /// How many heaps count.
    pub fn rank(&self) -> usize {
        self.leads.len()
    }

    /// How many counts of a heap the monoid tells apart.
    pub fn span(&self, i: usize) -> usize {
        at(&self.leads, i).saturating_add(at(&self.periods, i))
    }

    /// A heap's count, as the monoid knows it.
    pub fn folded(&self, i: usize, count: usize) -> usize {
        let lead = at(&self.leads, i);
        if count < lead {
            return count;
        }
        lead.saturating_add(rest(count.saturating_sub(lead), at(&self.periods, i)))
    }

    /// How many combinations of counts the monoid tells apart.
    pub fn combinations(&self) -> usize {
        let mut product = 1usize;
        for i in 0..self.rank() {
            product = product.saturating_mul(self.span(i));
        }
        product
    }
}
