//! A search for kept positions, of which nothing is promised. One after another, by their weights, those are kept
//! that are bad beside some class beside which no lighter one of their label is.
use crate::entries::is_good_with;
use crate::listed::zeros;
use crate::slots::{at, mark, read, small, weigh};
use crate::tables::{KeptPositions, LabelTables};
use allocation::Memory;
use std::alloc::{Allocator, Global};

/// Why no positions are found.
#[derive(Drop)]
pub enum NotFound<A: Allocator = Global> {
    /// The position of these heaps, by their numbers, may be bad beside nothing.
    Rule(Vec<u32, A>),
    /// What was found doesn't pass the test.
    Undecided,
    /// More positions were needed than were allowed.
    Limit,
    /// A growth was refused.
    Memory(Memory),
}

impl<A: Allocator> From<Memory> for NotFound<A> {
    fn from(memory: Memory) -> NotFound<A> {
        NotFound::Memory(memory)
    }
}

/// Positions that are kept, for each label the classes beside which one of them is bad, and how many times a position
/// has a heap that is free at it, if any is.
#[derive(Drop)]
struct Search<A: Allocator = Global> {
    found: KeptPositions<A>,
    reached: Vec<bool, A>,
    cap: usize,
}

/// The weight of the empty position.
fn no_weight<A: Allocator>(alloc: A) -> Result<Vec<u64, A>, Memory> {
    let mut all = Vec::new(alloc);
    all.push(0)?;
    Ok(all)
}

/// So many marks, true in the first row.
fn reached_by_nothing<A: Allocator>(alloc: A, t: &LabelTables<A>) -> Result<Vec<bool, A>, Memory> {
    let mut all = Vec::new(alloc);
    for w in 0..t.labels {
        for _ in 0..t.classes {
            all.push(w == 0)?;
        }
    }
    Ok(all)
}

impl<A: Allocator + Copy> Search<A> {
    /// The empty position, which covers all others of its label.
    fn new(alloc: A, t: &LabelTables<A>, cap: usize) -> Result<Search<A>, Memory> {
        let mut search = Search {
            found: KeptPositions {
                count: 1,
                labels: zeros(alloc, 1)?,
                weights: no_weight(alloc)?,
                first: zeros(alloc, 2)?,
                heaps: Vec::new(alloc),
                others: Vec::new(alloc),
                parents: zeros(alloc, 1)?,
                onward: Vec::new(alloc),
                free: Vec::new(alloc),
            },
            reached: reached_by_nothing(alloc, t)?,
            cap,
        };
        search.keep_free(t, 0)?;
        Ok(search)
    }

    /// How many times position `i` has heap `g`.
    fn count_of(&self, i: usize, g: usize) -> usize {
        let from = read(&self.found.first, i);
        let to = read(&self.found.first, i.saturating_add(1));
        let mut count = 0usize;
        for o in from..to {
            if read(&self.found.heaps, o) == g {
                count = count.saturating_add(1);
            }
        }
        count
    }

    /// Writes down which heaps are free at position `i`, the last one.
    fn keep_free(&mut self, t: &LabelTables<A>, i: usize) -> Result<(), Memory> {
        if 0 < self.cap {
            for g in 0..t.heaps {
                let free = self.cap <= self.count_of(i, g);
                self.found.free.push(free)?;
            }
        }
        Ok(())
    }

    /// Writes down beside which classes position `i` with heap `g` more is bad, if no position before was, and says
    /// whether there are any.
    fn reach(&mut self, t: &LabelTables<A>, i: usize, g: usize, label: usize) -> bool {
        let mut fresh = false;
        for x in 0..t.classes {
            let cell = at(t.classes, label, x);
            if !mark(&self.reached, cell) && !is_good_with(t, &self.found, i, g, x) {
                if cell < self.reached.len() {
                    self.reached[cell] = true;
                }
                fresh = true;
            }
        }
        fresh
    }

    /// Keeps the entries of position `i` with heap `g` more.
    fn keep_entries(&mut self, t: &LabelTables<A>, i: usize, g: usize) -> Result<(), Memory> {
        self.found.heaps.push(small(g))?;
        let label = read(&self.found.labels, i);
        self.found.others.push(small(label))?;
        let from = read(&self.found.first, i);
        let to = read(&self.found.first, i.saturating_add(1));
        for o in from..to {
            let heap = read(&self.found.heaps, o);
            let next = read(&t.next, at(t.heaps, read(&self.found.others, o), g));
            self.found.heaps.push(small(heap))?;
            self.found.others.push(small(next))?;
        }
        let end = self.found.heaps.len();
        self.found.first.push(small(end))?;
        Ok(())
    }

    /// The weight of position `i` with heap `g` more.
    fn weight_with(&self, t: &LabelTables<A>, i: usize, g: usize) -> u64 {
        weigh(&t.weights, g).saturating_add(weigh(&self.found.weights, i))
    }

    /// Keeps position `i` with heap `g` more.
    fn keep(&mut self, t: &LabelTables<A>, i: usize, g: usize, label: usize) -> Result<(), Memory> {
        let weight = self.weight_with(t, i, g);
        self.keep_entries(t, i, g)?;
        self.found.labels.push(small(label))?;
        self.found.weights.push(weight)?;
        self.found.parents.push(small(i))?;
        self.keep_free(t, self.found.count)?;
        self.found.count = self.found.count.saturating_add(1);
        Ok(())
    }

    /// The heaps of position `i`, and one more.
    fn heaps_with(&self, alloc: A, i: usize, g: usize) -> Result<Vec<u32, A>, Memory> {
        let mut all = Vec::new(alloc);
        all.push(small(g))?;
        let from = read(&self.found.first, i);
        let to = read(&self.found.first, i.saturating_add(1));
        for o in from..to {
            all.push(small(read(&self.found.heaps, o)))?;
        }
        Ok(all)
    }

    /// Keeps position `i` with heap `g` more, if it isn't covered and the heap isn't free.
    fn take(
        &mut self,
        alloc: A,
        t: &LabelTables<A>,
        i: usize,
        g: usize,
    ) -> Result<(), NotFound<A>> {
        if mark(&self.found.free, at(t.heaps, i, g)) {
            return Ok(());
        }
        if !is_good_with(t, &self.found, i, g, t.start) {
            let heaps = self.heaps_with(alloc, i, g)?;
            return Err(NotFound::Rule(heaps));
        }
        let label = read(&t.next, at(t.heaps, read(&self.found.labels, i), g));
        if label < t.labels && self.reach(t, i, g, label) {
            self.keep(t, i, g, label)?;
        }
        Ok(())
    }

    /// The positions from number `from` on with each heap more, by their weights: a weight, the position and the heap.
    fn candidates(
        &self,
        alloc: A,
        t: &LabelTables<A>,
        from: usize,
    ) -> Result<Vec<(u64, u32, u32), A>, Memory> {
        let mut all = Vec::new(alloc);
        for i in from..self.found.count {
            for g in 0..t.heaps {
                all.push((self.weight_with(t, i, g), small(i), small(g)))?;
            }
        }
        all.sort_unstable();
        Ok(all)
    }

    /// Keeps what isn't covered of the positions from number `from` on with one heap more. Of those with one weight
    /// the first is looked at: the others are mostly the same heaps in another order.
    fn grow(&mut self, alloc: A, t: &LabelTables<A>, from: usize) -> Result<(), NotFound<A>> {
        let all = self.candidates(alloc, t, from)?;
        let mut last = 0;
        for (weight, i, g) in all.iter() {
            if *weight != last {
                self.take(alloc, t, *i as usize, *g as usize)?;
            }
            last = *weight;
        }
        Ok(())
    }

    /// The position of this weight, or their number.
    fn of_weight(&self, weight: u64) -> usize {
        match self.found.weights.binary_search(&weight) {
            Ok(j) => j,
            Err(_) => self.found.count,
        }
    }

    /// Writes down to which position each one with a heap more leads.
    fn join(&mut self, alloc: A, t: &LabelTables<A>) -> Result<(), Memory> {
        let mut onward = Vec::new(alloc);
        for i in 0..self.found.count {
            for g in 0..t.heaps {
                let weight = self.weight_with(t, i, g);
                onward.push(small(self.of_weight(weight)))?;
            }
        }
        self.found.onward = onward;
        Ok(())
    }
}

/// Positions that may pass the test; at most `limit` and those made of them by one heap more. A heap is free at a
/// position that has it `cap` times, if that isn't 0.
pub(crate) fn positions_of<A: Allocator + Copy>(
    alloc: A,
    t: &LabelTables<A>,
    cap: usize,
    limit: usize,
) -> Result<KeptPositions<A>, NotFound<A>> {
    let mut search = Search::new(alloc, t, cap)?;
    let mut from = 0;
    for _ in 0..limit {
        let to = search.found.count;
        if from == to {
            break;
        }
        if limit < to {
            return Err(NotFound::Limit);
        }
        search.grow(alloc, t, from)?;
        from = to;
    }
    search.join(alloc, t)?;
    Ok(search.found)
}
