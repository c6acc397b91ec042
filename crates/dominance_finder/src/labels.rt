//! The triples of the first heaps, and how they repeat.
use std::alloc::Allocator;

/// The fewest heaps that show a period.
const FEWEST_SHOWN: usize = 4;

/// A heap's parity, weight and lead.
#[derive(Clone, Copy, PartialEq, Eq)]
pub struct Label {
    pub is_odd: bool,
    pub weight: usize,
    pub lead: usize,
}

impl Label {
    /// With so much more weight, and so much more lead, unless there is none.
    fn raised(self, rise: usize) -> Label {
        Label {
            is_odd: self.is_odd,
            weight: self.weight.saturating_add(rise),
            lead: if self.lead == 0 {
                0
            } else {
                self.lead.saturating_add(rise)
            },
        }
    }
}

/// From which heap on labels repeat, after how many, and by how much weights and leads rise each time.
#[derive(Clone, Copy, PartialEq, Eq)]
pub struct Repeat {
    pub start: usize,
    pub period: usize,
    pub rise: usize,
}

impl Repeat {
    /// Not at all.
    pub fn none() -> Repeat {
        Repeat {
            start: 0,
            period: 0,
            rise: 0,
        }
    }

    /// The last heap of the first period.
    pub fn last(self) -> usize {
        self.start.saturating_add(self.period).saturating_sub(1)
    }
}

/// The labels of the heaps 1, 2, ..
#[derive(Drop)]
pub struct Labels<A: Allocator> {
    pub items: Vec<Label, A>,
}

impl<A: Allocator> Labels<A> {
    /// That of the heap n, if it is there.
    pub fn get(&self, n: usize) -> Option<Label> {
        match self.items.get(n.wrapping_sub(1)) {
            Some(label) => Some(*label),
            None => None,
        }
    }

    /// How much weight the last heap has more than the one a period before it. 0 if that is no rise.
    fn rise(&self, period: usize) -> usize {
        let last = self.items.len();
        match (self.get(last), self.get(last.wrapping_sub(period))) {
            (Some(later), Some(earlier)) => later.weight.saturating_sub(earlier.weight),
            _ => 0,
        }
    }

    /// From which heap on all that are there repeat so.
    fn start(&self, period: usize, rise: usize) -> usize {
        let compared = self.items.len().saturating_sub(period);
        for below in 0..compared {
            let n = compared.wrapping_sub(below);
            match (self.get(n), self.get(n.wrapping_add(period))) {
                (Some(earlier), Some(later)) if earlier.raised(rise) == later => {}
                _ => return n.wrapping_add(1),
            }
        }
        1
    }

    /// The least period by which the last heaps repeat with a rise that is even, if as many heaps as it
    /// has show it once more.
    pub fn repeat(&self) -> Option<Repeat> {
        let count = self.items.len();
        for period in 1..count / 2 {
            let rise = self.rise(period);
            if rise == 0 || rise % 2 == 1 {
                continue;
            }
            let start = self.start(period, rise);
            let shown = count
                .saturating_add(1)
                .saturating_sub(start.saturating_add(period));
            if shown >= period.max(FEWEST_SHOWN) {
                return Some(Repeat {
                    start,
                    period,
                    rise,
                });
            }
        }
        None
    }
}
