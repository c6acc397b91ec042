//! The dead contexts of positions, by which a quotient is seen to be right for every position.
use crate::cells::{index, put_index, word};
use crate::chains::{Chains, NONE};
use crate::dead::{Dead, dead_of_heap, dead_of_sum, is_empty, is_within, leaves_portion, words_of};
use crate::quotient::HeapQuotient;
use crate::sets::{MOST_WORDS, Sets};
use crate::work::{Halt, Means, Work};
use std::alloc::Allocator;

/// As a count of generators: a member that isn't needed any more.
const GONE: usize = usize::MAX;

/// The most members.
const MOST_MEMBERS: usize = 500_000;

/// For each value the largest sets of dead contexts that positions have. Those within others aren't
/// needed, nor are empty ones: with more heaps they stay within, or empty.
#[derive(Drop)]
pub struct DeadContexts<A: Allocator> {
    members: Sets<A>,
    /// How many generators a member was multiplied with.
    done: Vec<usize, A>,
    /// The members of each value.
    chains: Chains<A>,
    generators: Sets<A>,
    /// Whether the rule fails at some position.
    pub failed: bool,
}

impl<A: Allocator + Copy> DeadContexts<A> {
    /// Nothing, and no memory.
    pub fn empty(alloc: A) -> DeadContexts<A> {
        DeadContexts {
            members: Sets::new(alloc, 0),
            done: Vec::new(alloc),
            chains: Chains::empty(alloc),
            generators: Sets::new(alloc, 0),
            failed: false,
        }
    }

    /// Begins anew with no heap, for a quotient.
    pub fn begin(&mut self, alloc: A, quotient: &HeapQuotient<A>) -> Result<(), Halt> {
        let chains = Chains::new(alloc, quotient.order)?;
        let words = words_of(quotient);
        *self = DeadContexts {
            members: Sets::new(alloc, words),
            done: Vec::new(alloc),
            chains,
            generators: Sets::new(alloc, words),
            failed: false,
        };
        Ok(())
    }

    /// Begins anew with all heaps of a quotient, up to the first one by which the rule fails.
    pub fn renew(
        &mut self,
        means: &mut Means<'_, A>,
        quotient: &HeapQuotient<A>,
    ) -> Result<(), Halt> {
        self.begin(means.alloc, quotient)?;
        for n in 1..quotient.heaps.len().saturating_add(1) {
            self.add(means, quotient, n)?;
            if self.failed {
                break;
            }
        }
        Ok(())
    }

    /// Adds the heap n, and what follows with it.
    pub fn add(
        &mut self,
        means: &mut Means<'_, A>,
        quotient: &HeapQuotient<A>,
        n: usize,
    ) -> Result<(), Halt> {
        let options = quotient.heap_moves(n).len();
        if options == 0 {
            return Ok(());
        }
        means
            .work
            .spend(quotient.order.saturating_mul(options.saturating_add(1)))?;
        if !leaves_portion(quotient, n) {
            self.failed = true;
            return Ok(());
        }
        let set = dead_of_heap(means.alloc, quotient, n)?;
        self.add_generator(means, quotient, quotient.heap(n), &set)
    }

    /// Adds a generator with its dead contexts, where it brings any.
    fn add_generator(
        &mut self,
        means: &mut Means<'_, A>,
        quotient: &HeapQuotient<A>,
        value: usize,
        set: &[u64],
    ) -> Result<(), Halt> {
        means.work.spend(self.generators.size())?;
        if is_empty(set) || self.has_generator(value, set) {
            return Ok(());
        }
        self.generators.push(value, set)?;
        self.keep(value, set, &mut means.work)?;
        self.close(means, quotient)
    }

    /// Multiplies the members with the generators, until nothing is new.
    fn close(&mut self, means: &mut Means<'_, A>, quotient: &HeapQuotient<A>) -> Result<(), Halt> {
        let mut sum: Vec<u64, A> = vec![in means.alloc; 0u64; self.members.words()]?;
        self.close_with(quotient, &mut sum, &mut means.work)
    }
}

impl<A: Allocator> DeadContexts<A> {
    fn close_with(
        &mut self,
        quotient: &HeapQuotient<A>,
        sum: &mut Vec<u64, A>,
        work: &mut Work,
    ) -> Result<(), Halt> {
        for member in 0..MOST_MEMBERS {
            if member >= self.members.len() || self.failed {
                return Ok(());
            }
            work.spend(1)?;
            self.multiply(quotient, member, sum, work)?;
        }
        Err(Halt::Work)
    }

    fn has_generator(&self, value: usize, set: &[u64]) -> bool {
        for generator in 0..self.generators.len() {
            if self.generators.number(generator) == value
                && is_within(set, self.generators.set(generator))
            {
                return true;
            }
        }
        false
    }

    /// Multiplies a member with the generators that it wasn't multiplied with.
    fn multiply(
        &mut self,
        quotient: &HeapQuotient<A>,
        member: usize,
        sum: &mut Vec<u64, A>,
        work: &mut Work,
    ) -> Result<(), Halt> {
        for generator in index(&self.done, member)..self.generators.len() {
            work.spend(quotient.order)?;
            self.multiply_by(quotient, member, generator, sum, work)?;
        }
        if index(&self.done, member) != GONE {
            put_index(&mut self.done, member, self.generators.len());
        }
        Ok(())
    }

    /// Multiplies a member with a generator.
    fn multiply_by(
        &mut self,
        quotient: &HeapQuotient<A>,
        member: usize,
        generator: usize,
        sum: &mut Vec<u64, A>,
        work: &mut Work,
    ) -> Result<(), Halt> {
        let value = self.members.number(member);
        let other = self.generators.number(generator);
        let x = Dead {
            value,
            set: self.members.set(member),
        };
        let y = Dead {
            value: other,
            set: self.generators.set(generator),
        };
        if dead_of_sum(quotient, x, y, sum) {
            self.keep(quotient.times(value, other), sum, work)?;
        }
        Ok(())
    }

    /// Keeps a member, where it isn't within another one, and lets those within it go.
    fn keep(&mut self, value: usize, set: &[u64], work: &mut Work) -> Result<(), Halt> {
        let mut member = self.chains.first(value);
        for _ in 0..self.members.len() {
            if member == NONE {
                break;
            }
            work.spend(self.members.words())?;
            if self.is_covered(member, set) {
                return Ok(());
            }
            member = self.chains.after(member);
        }
        self.push(value, set)
    }

    /// Whether a set is within that of a member that is still needed. A member within the set goes.
    fn is_covered(&mut self, member: usize, set: &[u64]) -> bool {
        if index(&self.done, member) == GONE {
            return false;
        }
        if is_within(set, self.members.set(member)) {
            return true;
        }
        if is_within(self.members.set(member), set) {
            put_index(&mut self.done, member, GONE);
        }
        false
    }

    fn push(&mut self, value: usize, set: &[u64]) -> Result<(), Halt> {
        if self.members.size() > MOST_WORDS {
            return Err(Halt::Work);
        }
        let member = self.members.len();
        self.chains.add()?;
        self.chains.link(member, value);
        self.members.push(value, set)?;
        self.done.push(0)?;
        self.failed |= word(set, 0) & 1 == 1;
        Ok(())
    }
}
