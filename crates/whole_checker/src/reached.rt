//! Triples of positions, those of few heaps before those of more. Nothing is promised of them.
use allocation::Memory;
use dominance_checker::{Rank, Shape};
use std::alloc::{Allocator, Global};

/// The largest weight, and the largest lead, of a triple that is kept.
const MOST_WEIGHT: u64 = 127;

/// How many weights and leads there are.
const WIDTH: usize = 128;

/// Triples, of each a position that has it: that of its parent, a number greater by one, and a heap more; and
/// which there are, by their numbers.
#[derive(Drop)]
pub(crate) struct Reached<A: Allocator = Global> {
    ranks: Vec<Rank, A>,
    parents: Vec<usize, A>,
    heaps: Vec<u64, A>,
    marks: Vec<bool, A>,
}

/// The rank of entry `n`, or that of nothing.
fn read(ranks: &[Rank], n: u64) -> Rank {
    match ranks.get(n as usize) {
        Some(rank) => *rank,
        None => Rank {
            odd: false,
            weight: 0,
            lead: 0,
        },
    }
}

/// The rank of the heap n.
fn rank_of(s: Shape, ranks: &[Rank], n: u64) -> Rank {
    if n < s.start || s.period == 0 {
        return read(ranks, n);
    }
    let past = n - s.start;
    let first = read(ranks, s.start.saturating_add(past % s.period));
    let more = s.rise.saturating_mul(past / s.period);
    Rank {
        odd: first.odd,
        weight: first.weight.saturating_add(more),
        lead: if first.lead == 0 {
            0
        } else {
            first.lead.saturating_add(more)
        },
    }
}

/// The rank of two positions together.
fn beside(u: Rank, v: Rank) -> Rank {
    let lead = u.lead.saturating_sub(v.weight);
    Rank {
        odd: u.odd != v.odd,
        weight: u.weight.saturating_add(v.weight),
        lead: lead.max(v.lead.saturating_sub(u.weight)),
    }
}

/// The place of the mark of a triple whose numbers aren't too large.
fn mark_of(u: Rank) -> Option<usize> {
    if u.weight > MOST_WEIGHT || u.lead > MOST_WEIGHT {
        return None;
    }
    let place = u.weight as usize * WIDTH + u.lead as usize;
    Some(place * 2 + u.odd as usize)
}

impl<A: Allocator + Copy> Reached<A> {
    /// The triple of no heaps.
    pub(crate) fn new(alloc: A) -> Result<Reached<A>, Memory> {
        let mut marks = Vec::with_capacity(alloc, 2 * WIDTH * WIDTH)?;
        for place in 0..2 * WIDTH * WIDTH {
            marks.push(place == 0)?;
        }
        Ok(Reached {
            ranks: Vec::from_slice(alloc, &[read(&[], 0)])?,
            parents: Vec::from_slice(alloc, &[0_usize])?,
            heaps: Vec::from_slice(alloc, &[0_u64])?,
            marks,
        })
    }

    /// The heaps of number `n`.
    pub(crate) fn heaps(&self, alloc: A, n: usize) -> Result<Vec<u64, A>, Memory> {
        let mut heaps = Vec::new(alloc);
        let mut now = n;
        for _ in 0..self.ranks.len() {
            let parent = self.parents.get(now).copied().unwrap_or(0);
            if parent == 0 {
                break;
            }
            heaps.push(self.heaps.get(now).copied().unwrap_or(0))?;
            now = parent - 1;
        }
        Ok(heaps)
    }
}

impl<A: Allocator> Reached<A> {
    /// How many there are.
    pub(crate) fn len(&self) -> usize {
        self.ranks.len()
    }

    /// Puts in the triple of number `n` and a heap together, if it isn't there.
    pub(crate) fn add(
        &mut self,
        s: Shape,
        ranks: &[Rank],
        n: usize,
        heap: u64,
    ) -> Result<(), Memory> {
        let all = beside(read(&self.ranks, n as u64), rank_of(s, ranks, heap));
        let Some(place) = mark_of(all) else {
            return Ok(());
        };
        if place >= self.marks.len() || self.marks[place] {
            return Ok(());
        }
        self.marks[place] = true;
        self.ranks.push(all)?;
        self.parents.push(n.saturating_add(1))?;
        self.heaps.push(heap)?;
        Ok(())
    }
}
