//! Values of positions: what a claim tells of them.
use crate::counts::{Counts, added, place};
use running_pairs::{Fold, byte};
use std::alloc::Allocator;

/// The value of a position: its element, and its counts, from which steps were taken.
#[derive(Clone, Copy, PartialEq, Eq)]
pub struct Value {
    pub element: u16,
    pub counts: Counts,
}

impl Value {
    /// The value of no heap.
    pub const ONE: Value = Value {
        element: 0,
        counts: Counts::NONE,
    };
}

/// How values are multiplied, and which are P: a table, one element's row after another, the fold of the counts, and for
/// each element and each place whether it is P.
#[derive(Drop)]
pub struct ValueTable<A: Allocator> {
    pub order: usize,
    pub rows: Vec<u16, A>,
    pub fold: Fold,
    pub inside: Vec<u8, A>,
}

impl<A: Allocator> ValueTable<A> {
    /// The product of two elements.
    #[inline]
    pub fn times_elements(&self, x: u16, y: u16) -> u16 {
        let to = (x as usize)
            .wrapping_mul(self.order)
            .wrapping_add(y as usize);
        match self.rows.get(to) {
            Some(element) => *element,
            None => 0,
        }
    }

    /// The product of two values.
    #[inline]
    pub fn times(&self, one: Value, other: Value) -> Value {
        Value {
            element: self.times_elements(one.element, other.element),
            counts: added(self.fold, one.counts, other.counts),
        }
    }

    /// Whether something is counted beside the elements.
    pub fn is_counting(&self) -> bool {
        self.fold.places() > 1
    }

    /// Whether a value is P.
    #[inline]
    pub fn is_p(&self, value: Value) -> bool {
        let to = (value.element as usize)
            .wrapping_mul(self.fold.places())
            .wrapping_add(place(self.fold, value.counts));
        byte(&self.inside, to) == 1
    }

    /// Whether a value is P beside a context.
    #[inline]
    pub fn is_p_beside(&self, value: Value, context: Value) -> bool {
        self.is_p(self.times(value, context))
    }

    /// From how many copies of an element on its powers come again, and after how many.
    pub fn cycle_of(&self, element: u16) -> (u32, u32) {
        let mut power = 0u16;
        // All powers behind this one come again.
        for _ in 0..self.order {
            power = self.times_elements(power, element);
        }
        let period = self.period_at(power, element);
        (self.index_of(element, period), period)
    }

    /// After how many more copies of an element a power comes again.
    fn period_at(&self, power: u16, element: u16) -> u32 {
        let mut period = 0u32;
        let mut next = power;
        for _ in 0..self.order {
            period = period.saturating_add(1);
            next = self.times_elements(next, element);
            if next == power {
                break;
            }
        }
        period
    }

    /// From how many copies on powers come again after so many more.
    fn index_of(&self, element: u16, period: u32) -> u32 {
        let mut ahead = 0u16;
        for _ in 0..period {
            ahead = self.times_elements(ahead, element);
        }
        let mut index = 0u32;
        let mut power = 0u16;
        for _ in 0..self.order {
            if power == ahead {
                break;
            }
            index = index.saturating_add(1);
            power = self.times_elements(power, element);
            ahead = self.times_elements(ahead, element);
        }
        index
    }
}
