//! The search for a quotient, heap by heap.
use crate::aim::{Extent, Found, Reason};
use crate::cells::at;
use crate::extend::{Extended, extend};
use crate::quotient::HeapQuotient;
use crate::repair::repair;
use crate::scene::Scene;
use crate::state::State;
use crate::work::{Halt, Means, Work};
use crate::{is_shown, repeats_from};
use allocation::Memory;
use octal_code::Code;
use std::alloc::Allocator;

/// Adds the heap n, and makes the quotient right.
fn extend_rightly<A: Allocator + Copy>(
    means: &mut Means<'_, A>,
    scene: &Scene<A>,
    state: &mut State<A>,
    n: usize,
) -> Result<(), Halt> {
    match extend(means, scene, &mut state.quotient, n)? {
        Extended::Anew => state.dead_contexts.renew(means, &state.quotient)?,
        Extended::Same => state.dead_contexts.add(means, &state.quotient, n)?,
        Extended::Twin => return Ok(()),
    }
    if state.dead_contexts.failed {
        repair(means, state)?;
    }
    Ok(())
}

/// Whether the heaps show a period.
fn has_period(code: &Code, heaps: &[u16], work: &mut Work) -> Result<bool, Halt> {
    work.spend(heaps.len())?;
    let parts = if code.leaves_three() { 3 } else { 2 };
    let needed = heaps.len().saturating_sub(code.last() as usize);
    let most = needed.saturating_add(1) / parts;
    for period in 1..most {
        if repeats_by(heaps, most.wrapping_sub(period), period, work)?
            && is_shown(code, heaps, repeats_from(heaps, period), period)
        {
            return Ok(true);
        }
    }
    Ok(false)
}

/// Whether the heaps from this one on repeat after so many.
fn repeats_by(heaps: &[u16], start: usize, period: usize, work: &mut Work) -> Result<bool, Halt> {
    let last = heaps.len().wrapping_sub(period);
    if at(heaps, last.wrapping_sub(1)) != at(heaps, heaps.len().wrapping_sub(1)) {
        return Ok(false);
    }
    for n in start..last {
        if at(heaps, n.wrapping_sub(1)) != at(heaps, n.wrapping_add(period).wrapping_sub(1)) {
            work.spend(n.wrapping_sub(start))?;
            return Ok(false);
        }
    }
    work.spend(last)?;
    Ok(true)
}

/// A search on its way: the last heap that was begun with, and how many elements there were before
/// it.
#[derive(Drop)]
struct Search<'a, A: Allocator> {
    means: Means<'a, A>,
    extent: Extent,
    order: usize,
    heap: usize,
    before: usize,
}

impl<A: Allocator + Copy> Search<'_, A> {
    /// Brings an empty state to the quotient that is searched for.
    fn extend_all(&mut self, state: &mut State<A>) -> Result<(), Halt> {
        let scene = Scene::plain(self.means.alloc)?;
        self.extend_beside(&scene, state)
    }

    /// The same beside contexts.
    fn extend_beside(&mut self, scene: &Scene<A>, state: &mut State<A>) -> Result<(), Halt> {
        state.quotient.begin(scene)?;
        state
            .dead_contexts
            .begin(self.means.alloc, &state.quotient)?;
        for n in 1..self.extent.last().saturating_add(1) {
            self.heap = n;
            self.before = state.quotient.order;
            extend_rightly(&mut self.means, scene, state, n)?;
            if self.is_met(&state.quotient)? {
                break;
            }
        }
        Ok(())
    }

    /// Whether the search is at its end with this quotient.
    fn is_met(&mut self, quotient: &HeapQuotient<A>) -> Result<bool, Halt> {
        if quotient.order > self.order {
            return Err(Halt::TooLarge);
        }
        match self.extent {
            Extent::Period(_) => has_period(self.means.code, &quotient.heaps, &mut self.means.work),
            Extent::Part(_) => Ok(false),
        }
    }
}

impl<A: Allocator> Search<'_, A> {
    /// What ended it early.
    fn reason(&self, halt: Halt) -> Result<Reason, Memory> {
        let (heap, order) = (self.heap, self.before);
        match halt {
            Halt::Memory => Err(Memory),
            Halt::TooLarge => Ok(Reason::TooLarge { heap }),
            Halt::Repairs => Ok(Reason::Repairs { heap, order }),
            Halt::Work => Ok(Reason::Work { heap, order }),
        }
    }
}

/// A guess of the quotient of as many of a code's heaps as `extent` says, of at most `order`
/// elements, or why there is none. The work is bounded.
pub fn search_quotient<A: Allocator + Copy>(
    alloc: A,
    code: &Code,
    extent: Extent,
    order: usize,
) -> Result<Found<A>, Memory> {
    let means = Means {
        alloc,
        code,
        work: Work::new(extent.work()),
    };
    let mut search = Search {
        means,
        extent,
        order,
        heap: 0,
        before: 1,
    };
    let mut state = State::empty(alloc);
    match search.extend_all(&mut state) {
        Ok(()) => Ok(Found {
            heaps: search.heap,
            quotient: Ok(state.into_quotient()),
        }),
        Err(halt) => {
            drop(state);
            Ok(Found {
                heaps: search.heap.saturating_sub(1),
                quotient: Err(search.reason(halt)?),
            })
        }
    }
}
