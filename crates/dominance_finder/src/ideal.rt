//! The least ideal of a quotient, by which parities are read.
use quotient_search::{Halt, HeapQuotient, Work};
use std::alloc::Allocator;

/// How often an element is squared, so that it lies in the least ideal.
const SQUARES: usize = 16;

/// What a product with the identity of the least ideal says of an element.
#[derive(Clone, Copy, PartialEq, Eq)]
pub struct Parities {
    pub is_odd: bool,
    pub has_odd_weight: bool,
}

/// The four elements of a least ideal, and the one that turns the parity and nothing else.
#[derive(Clone, Copy)]
pub struct Ideal {
    identity: usize,
    turned: usize,
    ruled: usize,
    turned_ruled: usize,
    pub turning: usize,
}

/// The product of all heaps, to a high power.
fn power_of_all<A: Allocator>(quotient: &HeapQuotient<A>) -> usize {
    let mut product = 0usize;
    for n in 1..quotient.heaps().len().saturating_add(1) {
        product = quotient.times(product, quotient.heap(n));
    }
    for _ in 0..SQUARES {
        product = quotient.times(product, product);
    }
    product
}

/// The element that turns the parity: it is P, and its own inverse. 0 if there is none.
fn turning<A: Allocator>(quotient: &HeapQuotient<A>) -> usize {
    for x in 1..quotient.order() {
        if quotient.is_in_portion(x) && quotient.times(x, x) == 0 {
            return x;
        }
    }
    0
}

/// The product with the identity of the ideal of the first element that is P, but isn't by the parities
/// of these two: one with a ruling heap. The first of the two, if there is none.
fn ruled<A: Allocator>(quotient: &HeapQuotient<A>, identity: usize, turned: usize) -> usize {
    for x in 1..quotient.order() {
        let image = quotient.times(x, identity);
        if quotient.is_in_portion(x) && image != identity && image != turned {
            return image;
        }
    }
    identity
}

impl Ideal {
    /// That of a quotient, if the quotient can be one of a game with a ruling heap.
    pub fn of<A: Allocator>(
        quotient: &HeapQuotient<A>,
        work: &mut Work,
    ) -> Result<Option<Ideal>, Halt> {
        work.spend(quotient.order().saturating_mul(16))?;
        let identity = power_of_all(quotient);
        let turning = turning(quotient);
        let turned = quotient.times(turning, identity);
        let ruled = ruled(quotient, identity, turned);
        let ideal = Ideal {
            identity,
            turned,
            ruled,
            turned_ruled: quotient.times(turning, ruled),
            turning,
        };
        Ok(if ideal.is_right(quotient) {
            Some(ideal)
        } else {
            None
        })
    }

    /// Whether these are four elements, a group, and the least ideal, and only the identity is P.
    fn is_right<A: Allocator>(&self, quotient: &HeapQuotient<A>) -> bool {
        let others = [self.turned, self.ruled, self.turned_ruled];
        for x in others.iter() {
            if *x == self.identity
                || quotient.is_in_portion(*x)
                || quotient.times(*x, *x) != self.identity
            {
                return false;
            }
        }
        quotient.is_in_portion(self.identity)
            && quotient.times(self.identity, self.identity) == self.identity
            && self.turned != self.ruled
            && self.is_least(quotient)
    }

    /// Whether each element has its product with the identity among the four, and no other than two of
    /// these are P.
    fn is_least<A: Allocator>(&self, quotient: &HeapQuotient<A>) -> bool {
        for x in 0..quotient.order() {
            let Some(parities) = self.parities(quotient, x) else {
                return false;
            };
            let is_unit = x == 0 || x == self.turning;
            if quotient.is_in_portion(x) && parities.is_odd && !is_unit {
                return false;
            }
        }
        true
    }

    /// The parities of an element.
    pub fn parities<A: Allocator>(&self, quotient: &HeapQuotient<A>, x: usize) -> Option<Parities> {
        let image = quotient.times(x, self.identity);
        let has_odd_weight = image == self.ruled || image == self.turned_ruled;
        if !has_odd_weight && image != self.identity && image != self.turned {
            return None;
        }
        Some(Parities {
            is_odd: image == self.turned || image == self.turned_ruled,
            has_odd_weight,
        })
    }

    /// Whether an element is in the ideal.
    pub fn has<A: Allocator>(&self, quotient: &HeapQuotient<A>, x: usize) -> bool {
        quotient.times(x, self.identity) == x
    }

    /// Whether an element has no weight.
    pub fn is_weightless(&self, x: usize) -> bool {
        x == 0 || x == self.turning
    }
}
