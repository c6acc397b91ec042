//! Which heaps count.
use quotient_search::{Halt, HeapQuotient, Work};
use running_pairs::{Cycle, Generators, at, cycle_of};
use std::alloc::Allocator;

/// A lead from which on a heap is taken for one that counts.
const LONG_LEAD: usize = 4;

/// The leads and periods of generators' powers.
#[derive(Drop)]
pub struct Cycles<A: Allocator> {
    pub leads: Vec<usize, A>,
    pub periods: Vec<usize, A>,
}

impl<A: Allocator + Copy> Cycles<A> {
    /// Of all generators.
    pub fn of_generators(
        alloc: A,
        quotient: &HeapQuotient<A>,
        generators: &Generators<A>,
        work: &mut Work,
    ) -> Result<Cycles<A>, Halt> {
        let mut cycles = Cycles {
            leads: Vec::new(alloc),
            periods: Vec::new(alloc),
        };
        for element in generators.elements.iter() {
            work.spend(quotient.order().saturating_mul(2))?;
            let Cycle { lead, period } = cycle_of(alloc, quotient, *element)?;
            cycles.leads.push(lead)?;
            cycles.periods.push(period)?;
        }
        Ok(cycles)
    }
}

/// The leads of all heaps' powers.
pub fn heap_leads<A: Allocator + Copy>(
    alloc: A,
    quotient: &HeapQuotient<A>,
    work: &mut Work,
) -> Result<Vec<usize, A>, Halt> {
    let mut leads: Vec<usize, A> = Vec::new(alloc);
    for heap in quotient.heaps().iter() {
        work.spend(quotient.order().saturating_mul(2))?;
        let found = cycle_of(alloc, quotient, *heap as usize)?;
        leads.push(found.lead)?;
    }
    Ok(leads)
}

/// Which generators are taken for ones that count.
#[derive(Clone, Copy, Debug, PartialEq, Eq)]
pub enum Counting {
    /// Those whose lead has grown since the first wrong quotient.
    Grown,
    /// Those, and those with a long lead.
    GrownOrLong,
}

/// The generators that are taken for ones that count, where `before` has heaps' leads of the first
/// wrong quotient, or none.
pub fn counted<A: Allocator + Copy>(
    alloc: A,
    generators: &Generators<A>,
    cycles: &Cycles<A>,
    before: &[usize],
    counting: Counting,
) -> Result<Vec<usize, A>, Halt> {
    let mut found: Vec<usize, A> = Vec::new(alloc);
    for i in 0..generators.count() {
        let lead = at(&cycles.leads, i);
        let place = at(&generators.heaps, i).wrapping_sub(1);
        let has_grown = match before.get(place) {
            Some(first) => lead > *first,
            None => false,
        };
        if has_grown || (counting == Counting::GrownOrLong && lead >= LONG_LEAD) {
            found.push(i)?;
        }
    }
    Ok(found)
}
