//! Repair of a wrong quotient, which had merged what it should not have.
use crate::cells::word;
use crate::collapse::{LevelPairs, collapse};
use crate::contexts::{Kept, contexts};
use crate::extend::extend;
use crate::failing::{Failing, lightest_failing};
use crate::levels::Levels;
use crate::quotient::HeapQuotient;
use crate::scene::Scene;
use crate::state::State;
use crate::work::{Halt, Means};
use std::alloc::Allocator;
use std::mem;

/// The most repairs for one heap, the most tries at each, and the most work of a try.
const MOST_REPAIRS: usize = 30;

const MOST_TRIES: usize = 200;

const MOST_WORK: u64 = 200_000_000;

/// How many elements weigh no more than so much.
fn lighter_elements<A: Allocator>(quotient: &HeapQuotient<A>, weight: usize) -> usize {
    let mut count = 0usize;
    for element in 0..quotient.order {
        if word(&quotient.weights, element) <= weight as u64 {
            count = count.wrapping_add(1);
        }
    }
    count
}

/// Makes an empty quotient that of the heaps 1 to `heaps`, beside contexts.
fn build<A: Allocator + Copy>(
    means: &mut Means<'_, A>,
    scene: &Scene<A>,
    heaps: usize,
    quotient: &mut HeapQuotient<A>,
) -> Result<(), Halt> {
    quotient.begin(scene)?;
    for n in 1..heaps.saturating_add(1) {
        extend(means, scene, quotient, n)?;
    }
    Ok(())
}

/// Writes a quotient beside the empty context alone into an empty one.
fn without_contexts<A: Allocator + Copy>(
    means: &mut Means<'_, A>,
    quotient: &HeapQuotient<A>,
    next: &mut HeapQuotient<A>,
) -> Result<(), Halt> {
    let levels = Levels::only(means.alloc, quotient)?;
    let pairs = LevelPairs {
        quotient,
        levels: &levels,
        heap: 0,
        kept: &[1u64],
        words: 1,
    };
    collapse(means, &pairs, next)
}

/// Writes the quotient of the heaps 1 to `heaps`, made anew beside contexts, into an empty one.
fn rebuild<A: Allocator + Copy>(
    means: &mut Means<'_, A>,
    scene: &Scene<A>,
    heaps: usize,
    next: &mut HeapQuotient<A>,
) -> Result<(), Halt> {
    let mut beside = HeapQuotient::empty(means.alloc);
    build(means, scene, heaps, &mut beside)?;
    without_contexts(means, &beside, next)
}

/// The contexts of one try to make a quotient right at a position. `None` where there is no try of
/// this number.
fn contexts_of_try<A: Allocator + Copy>(
    means: &mut Means<'_, A>,
    quotient: &HeapQuotient<A>,
    failing: &Failing<A>,
    number: usize,
) -> Result<Option<Scene<A>>, Halt> {
    let lighter = lighter_elements(quotient, failing.weight);
    let (elements, kept) = match number {
        0 => (lighter, Kept::All),
        1 => (quotient.order, Kept::All),
        2 => (lighter, Kept::Summands),
        3 => (quotient.order, Kept::Summands),
        more => (quotient.order, Kept::Summand(more.wrapping_sub(4))),
    };
    contexts(means, quotient, &failing.heaps, elements, kept)
}

/// What a try came to.
#[derive(Clone, Copy, PartialEq, Eq)]
pub enum Tried {
    /// There was nothing to try.
    Nothing,
    /// It reached a bound, or the lightest position at which the rule fails isn't heavier than
    /// before.
    Worse,
    /// The rule fails at a heavier position.
    Better,
    /// The quotient is right.
    Right,
}

/// Makes the quotient anew beside contexts, in an empty state, and looks what it came to.
fn judge<A: Allocator + Copy>(
    means: &mut Means<'_, A>,
    state: &State<A>,
    scene: &Scene<A>,
    next: &mut State<A>,
) -> Result<Tried, Halt> {
    rebuild(means, scene, state.quotient.heaps.len(), &mut next.quotient)?;
    next.dead_contexts.renew(means, &next.quotient)?;
    if !next.dead_contexts.failed {
        return Ok(Tried::Right);
    }
    if let Some(failing) = lightest_failing(means, &next.quotient)? {
        next.failing = failing;
        if next.failing.weight > state.failing.weight {
            return Ok(Tried::Better);
        }
    }
    Ok(Tried::Worse)
}

/// Makes the quotient anew beside contexts, and takes it where it is better.
fn improve<A: Allocator + Copy>(
    means: &mut Means<'_, A>,
    state: &mut State<A>,
    scene: &Scene<A>,
) -> Result<Tried, Halt> {
    let mut next = State::empty(means.alloc);
    let tried = judge(means, state, scene, &mut next);
    if matches!(tried, Ok(Tried::Better | Tried::Right)) {
        mem::swap(state, &mut next);
    }
    drop(next);
    tried
}

/// Makes a try.
fn attempt<A: Allocator + Copy>(
    means: &mut Means<'_, A>,
    state: &mut State<A>,
    number: usize,
) -> Result<Tried, Halt> {
    match contexts_of_try(means, &state.quotient, &state.failing, number)? {
        Some(scene) => improve(means, state, &scene),
        None => Ok(Tried::Nothing),
    }
}

/// Makes a try with no more than so much work.
fn within_share<A: Allocator + Copy>(
    means: &mut Means<'_, A>,
    state: &mut State<A>,
    number: usize,
) -> Result<Tried, Halt> {
    let held = means.work.hold_back(MOST_WORK);
    let tried = attempt(means, state, number);
    means.work.take_back(held);
    match tried {
        Err(Halt::Work) => Ok(Tried::Worse),
        other => other,
    }
}

/// Takes the first try that comes to something better.
pub fn first_better<A: Allocator + Copy>(
    means: &mut Means<'_, A>,
    state: &mut State<A>,
) -> Result<Tried, Halt> {
    for number in 0..MOST_TRIES {
        means.work.spend(1)?;
        let tried = within_share(means, state, number)?;
        if tried != Tried::Worse {
            return Ok(tried);
        }
    }
    Ok(Tried::Nothing)
}

/// Makes a wrong quotient right, with the dead contexts that show it, where a repair does.
pub fn repair<A: Allocator + Copy>(
    means: &mut Means<'_, A>,
    state: &mut State<A>,
) -> Result<(), Halt> {
    let Some(failing) = lightest_failing(means, &state.quotient)? else {
        return Err(Halt::Repairs);
    };
    state.failing = failing;
    for _ in 0..MOST_REPAIRS {
        match first_better(means, state)? {
            Tried::Right => return Ok(()),
            Tried::Better => {}
            Tried::Worse | Tried::Nothing => return Err(Halt::Repairs),
        }
    }
    Err(Halt::Repairs)
}
