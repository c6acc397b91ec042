//! The triples of heaps, read off a quotient.
use crate::ideal::{Ideal, Parities};
use crate::labels::{Label, Labels};
use quotient_search::{Halt, HeapQuotient, Work};
use std::alloc::Allocator;

/// A quotient, its least ideal, and an element of weight 1 without a lead.
#[derive(Drop)]
struct Scale<'a, A: Allocator> {
    quotient: &'a HeapQuotient<A>,
    ideal: Ideal,
    waiting: usize,
}

/// How often an element is multiplied by another until it is in the ideal.
fn depth<A: Allocator>(quotient: &HeapQuotient<A>, ideal: &Ideal, from: usize, by: usize) -> usize {
    let mut x = from;
    for count in 0..quotient.order() {
        if ideal.has(quotient, x) {
            return count;
        }
        x = quotient.times(x, by);
    }
    0
}

/// The heap's element of which most are needed to come into the ideal: one of weight 1. 0 if there is
/// none.
fn waiting<A: Allocator>(
    quotient: &HeapQuotient<A>,
    ideal: &Ideal,
    work: &mut Work,
) -> Result<usize, Halt> {
    let mut best = 0usize;
    let mut most = 0usize;
    for n in 1..quotient.heaps().len().saturating_add(1) {
        let x = quotient.heap(n);
        let found = depth(quotient, ideal, 0, x);
        work.spend(found)?;
        if found > most && !ideal.is_weightless(x) {
            best = x;
            most = found;
        }
    }
    Ok(best)
}

impl<A: Allocator> Scale<'_, A> {
    /// Whether an element, made even, has its outcome from a ruling heap.
    fn is_ruled(&self, x: usize, parities: Parities) -> bool {
        let even = if parities.is_odd {
            self.quotient.times(x, self.ideal.turning)
        } else {
            x
        };
        !self.ideal.is_weightless(x) && self.quotient.is_in_portion(even) == parities.has_odd_weight
    }

    /// The lead of an element.
    fn lead(&self, from: usize, work: &mut Work) -> Result<usize, Halt> {
        let mut x = from;
        for count in 0..self.quotient.order() {
            work.spend(1)?;
            match self.ideal.parities(self.quotient, x) {
                Some(parities) if self.is_ruled(x, parities) => {}
                _ => return Ok(count),
            }
            x = self.quotient.times(x, self.waiting);
        }
        Ok(0)
    }

    /// The weight of an element, seen beside the element with the largest lead, which lasts so long.
    /// `None` if it takes all of that, or isn't as odd as it is to be.
    fn weight(&self, x: usize, top: usize, lasting: usize, parities: Parities) -> Option<usize> {
        if self.ideal.is_weightless(x) {
            return Some(0);
        }
        let beside = self.quotient.times(x, top);
        let left = depth(self.quotient, &self.ideal, beside, self.waiting);
        let weight = lasting.saturating_sub(left);
        if left == 0 || (weight % 2 == 1) != parities.has_odd_weight {
            None
        } else {
            Some(weight)
        }
    }

    /// The label of a heap's element. `None` if its weight isn't seen.
    fn label(
        &self,
        x: usize,
        top: usize,
        lasting: usize,
        work: &mut Work,
    ) -> Result<Option<Label>, Halt> {
        work.spend(lasting)?;
        let Some(parities) = self.ideal.parities(self.quotient, x) else {
            return Ok(None);
        };
        let Some(weight) = self.weight(x, top, lasting, parities) else {
            return Ok(None);
        };
        let lead = self.lead(x, work)?;
        Ok(Some(Label {
            is_odd: parities.is_odd,
            weight,
            lead,
        }))
    }

    /// The heap's element with the largest lead.
    fn top(&self, work: &mut Work) -> Result<usize, Halt> {
        let mut best = 0usize;
        let mut most = 0usize;
        for n in 1..self.quotient.heaps().len().saturating_add(1) {
            let lead = self.lead(self.quotient.heap(n), work)?;
            if lead > most {
                best = self.quotient.heap(n);
                most = lead;
            }
        }
        Ok(best)
    }
}

impl<A: Allocator + Copy> Scale<'_, A> {
    /// The labels of the first heaps, up to the last whose weight is seen.
    fn labels(&self, alloc: A, work: &mut Work) -> Result<Labels<A>, Halt> {
        let top = self.top(work)?;
        let lasting = depth(self.quotient, &self.ideal, top, self.waiting);
        let mut items: Vec<Label, A> = Vec::new(alloc);
        for n in 1..self.quotient.heaps().len().saturating_add(1) {
            match self.label(self.quotient.heap(n), top, lasting, work)? {
                Some(label) => items.push(label)?,
                None => break,
            }
        }
        Ok(Labels { items })
    }
}

/// The labels of the first heaps, if the quotient can be one of a game with a ruling heap.
pub fn labels_of<A: Allocator + Copy>(
    alloc: A,
    quotient: &HeapQuotient<A>,
    work: &mut Work,
) -> Result<Option<Labels<A>>, Halt> {
    let Some(ideal) = Ideal::of(quotient, work)? else {
        return Ok(None);
    };
    let waiting = waiting(quotient, &ideal, work)?;
    if waiting == 0 {
        return Ok(None);
    }
    let scale = Scale {
        quotient,
        ideal,
        waiting,
    };
    scale.labels(alloc, work).map(Some)
}
