//! The search from a code alone.
use crate::base::Base;
use crate::counted::{Counting, Cycles, counted, heap_leads};
use crate::layout::Layout;
use crate::outcomes::View;
use crate::running::found_by_running;
use crate::trying::Tries;
use allocation::{Memory, SmallAllocator};
use octal_code::Code;
use presentation_search::FoundPresentation;
use quotient_search::{Guesses, Halt, HeapQuotient, Work};
use running_pairs::Generators;
use std::alloc::Allocator;

/// The most wrong quotients of one part that are looked at.
const MOST_GUESSES: usize = 12;

/// The work that the quotients may take, and the work beside each of them.
const SEARCH_WORK: u64 = 60_000_000_000;

const TRY_WORK: u64 = 10_000_000_000;

const RUNNING_WORK: u64 = 60_000_000_000;

/// From which wrong quotient of a part on pairs of heaps are looked for again. With those before it most
/// parts are right.
const LATER_GUESS: usize = 2;

/// The most elements of a base.
const MOST_BASE: usize = 3000;

/// How many heaps may count.
const FEWEST_COUNTED: usize = 2;

const MOST_COUNTED: usize = 5;

/// Why none was found. Nothing is claimed of the game.
#[derive(Clone, Copy, Debug, PartialEq, Eq)]
pub enum Unfound {
    /// Each part up to this heap seems to have a finite quotient.
    Finite { heaps: usize },
    /// At this heap the quotients that were guessed are wrong, and no shape that was tried is right.
    Shapes { heap: usize },
    /// At this heap the search came to its bound of work or of elements.
    Work { heap: usize },
    /// What was found is of another code or of other heaps than was asked.
    Refused,
}

/// Where a search is: the part at which guesses are wrong, how many were looked at there, the leads in the
/// first one, and the work that is left for pairs of heaps beside later ones.
#[derive(Drop)]
struct Part<A: Allocator> {
    heap: usize,
    guesses: usize,
    leads: Vec<usize, A>,
    later: Work,
}

/// Looks for a presentation by the heaps that are taken for ones that count.
fn by_counting<A: SmallAllocator + Copy>(
    alloc: A,
    code: &Code,
    quotient: &HeapQuotient<A>,
    generators: &Generators<A>,
    cycles: &Cycles<A>,
    counted: &[usize],
    tries: usize,
) -> Result<Option<FoundPresentation<A>>, Halt> {
    let mut work = Work::new(TRY_WORK);
    let base = Base::new(alloc, quotient, generators, counted, &mut work)?;
    if base.count() > MOST_BASE {
        return Ok(None);
    }
    let layout = Layout::new(alloc, &base, generators, counted, &mut work)?;
    let view = View {
        alloc,
        quotient,
        generators,
        counted,
        base: &base,
        layout: &layout,
    };
    let outcomes = view.outcomes(code, &mut work)?;
    let mut tries = Tries {
        code,
        view: &view,
        outcomes: &outcomes,
        cycles,
        left: tries,
    };
    tries.try_all(&mut work)
}

/// Looks for a presentation by two heaps that run against each other.
fn by_running<A: SmallAllocator + Copy>(
    alloc: A,
    code: &Code,
    quotient: &HeapQuotient<A>,
    last: usize,
    work: &mut Work,
) -> Result<Option<FoundPresentation<A>>, Halt> {
    match found_by_running(alloc, code, quotient, last, work) {
        Err(Halt::Memory) => Err(Halt::Memory),
        Ok(found) => Ok(found),
        _ => Ok(None),
    }
}

impl<A: SmallAllocator + Copy> Part<A> {
    /// Looks for a presentation by a wrong quotient.
    fn by_guess(
        &self,
        alloc: A,
        code: &Code,
        quotient: &HeapQuotient<A>,
    ) -> Result<Option<FoundPresentation<A>>, Halt> {
        let mut work = Work::new(TRY_WORK);
        let generators = Generators::new(alloc, quotient, &mut work)?;
        let cycles = Cycles::of_generators(alloc, quotient, &generators, &mut work)?;
        let tries = if self.guesses == 0 { 2 } else { 8 };
        let mut last: Vec<usize, A> = Vec::new(alloc);
        for counting in [Counting::Grown, Counting::GrownOrLong] {
            let found = counted(alloc, &generators, &cycles, &self.leads, counting)?;
            if found.len() < FEWEST_COUNTED || found.len() > MOST_COUNTED || found == last {
                continue;
            }
            let presented = by_counting(alloc, code, quotient, &generators, &cycles, &found, tries);
            match presented {
                Err(Halt::Memory) => return Err(Halt::Memory),
                Ok(Some(presented)) => return Ok(Some(presented)),
                _ => {}
            }
            last = found;
        }
        Ok(None)
    }

    /// Looks for a presentation by two heaps that run against each other, beside the first wrong quotient and
    /// beside later ones.
    fn by_pairs(
        &mut self,
        alloc: A,
        code: &Code,
        quotient: &HeapQuotient<A>,
    ) -> Result<Option<FoundPresentation<A>>, Halt> {
        if self.guesses == 0 {
            let mut work = Work::new(RUNNING_WORK);
            return by_running(alloc, code, quotient, self.heap, &mut work);
        }
        if self.guesses >= LATER_GUESS {
            return by_running(alloc, code, quotient, self.heap, &mut self.later);
        }
        Ok(None)
    }

    /// Looks for a presentation by a wrong quotient of the heaps 1 to `heap`, and takes note of it.
    fn look(
        &mut self,
        alloc: A,
        code: &Code,
        quotient: &HeapQuotient<A>,
        heap: usize,
    ) -> Result<Option<FoundPresentation<A>>, Halt> {
        if self.heap != heap {
            self.heap = heap;
            self.guesses = 0;
            self.leads.clear();
        }
        let mut presented = self.by_guess(alloc, code, quotient)?;
        if presented.is_none() {
            presented = self.by_pairs(alloc, code, quotient)?;
        }
        if self.guesses == 0 {
            let mut work = Work::new(TRY_WORK);
            self.leads = heap_leads(alloc, quotient, &mut work)?;
        }
        self.guesses = self.guesses.saturating_add(1);
        Ok(presented)
    }
}

/// A presentation where a search for quotients has halted, with one heap more than the last
/// quotient has, if it is found.
fn search_beyond<A: SmallAllocator + Copy>(
    alloc: A,
    code: &Code,
    guesses: &Guesses<'_, A>,
    heaps: usize,
) -> Result<Result<FoundPresentation<A>, Unfound>, Halt> {
    let reached = guesses.quotient().heaps().len();
    let last = reached.saturating_add(1).min(heaps);
    let mut work = Work::new(RUNNING_WORK);
    match by_running(alloc, code, guesses.quotient(), last, &mut work)? {
        Some(found) => Ok(Ok(found)),
        None => Ok(Err(Unfound::Work { heap: reached })),
    }
}

/// A presentation of the first part that has no finite quotient, if it is found, and else
/// why not.
fn search<A: SmallAllocator + Copy>(
    alloc: A,
    code: &Code,
    heaps: usize,
) -> Result<Result<FoundPresentation<A>, Unfound>, Halt> {
    let mut part = Part {
        heap: 0,
        guesses: 0,
        leads: Vec::new(alloc),
        later: Work::new(RUNNING_WORK),
    };
    let mut guesses = Guesses::new(alloc, code, heaps, SEARCH_WORK)?;
    for _ in 0..u64::MAX {
        let heap = match guesses.go_on() {
            Ok(Some(heap)) => heap,
            Ok(None) => return Ok(Err(Unfound::Finite { heaps })),
            Err(Halt::Memory) => return Err(Halt::Memory),
            Err(_) => return search_beyond(alloc, code, &guesses, heaps),
        };
        if let Some(found) = part.look(alloc, code, guesses.quotient(), heap)? {
            return Ok(Ok(found));
        }
        if part.guesses > MOST_GUESSES {
            return Ok(Err(Unfound::Shapes { heap }));
        }
    }
    Ok(Err(Unfound::Refused))
}

/// Looks for the first part, of the heaps 1 to some heap up to `heaps`, that has no finite quotient, and for the
/// presentation of its quotient. What it hands out was accepted by the check. The work is bounded, and the answer depends on
/// what is asked alone.
pub fn find_by_claims<A: SmallAllocator + Copy>(
    alloc: A,
    code: &Code,
    heaps: usize,
) -> Result<Result<FoundPresentation<A>, Unfound>, Memory> {
    match search(alloc, code, heaps) {
        Ok(found) => Ok(found),
        Err(Halt::Memory) => Err(Memory),
        Err(_) => Ok(Err(Unfound::Work { heap: heaps })),
    }
}
