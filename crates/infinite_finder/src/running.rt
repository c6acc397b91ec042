//! Claims by two heaps that run against each other.
use crate::claiming::Sketch;
use crate::elements::elements_of;
use crate::shapes::Shape;
use crate::states::States;
use crate::trying::judged;
use allocation::SmallAllocator;
use octal_code::Code;
use presentation_search::{ClaimValues, FoundPresentation};
use quotient_search::{Halt, HeapQuotient, Work};
use running_pairs::{RunningPair, RunningPairs};
use std::alloc::Allocator;

/// The elements of a pair's monoid as states.
fn states_of_pair<A: Allocator + Copy>(alloc: A, pair: &RunningPair<A>) -> Result<States<A>, Halt> {
    let mut states = States {
        count: pair.order(),
        letters: pair.generators().count(),
        places: pair.fold().places(),
        next: Vec::new(alloc),
        outcomes: Vec::new(alloc),
        order: Vec::new(alloc),
    };
    states.next.extend_from_slice(pair.steps())?;
    states.outcomes.extend_from_slice(pair.outcomes())?;
    for element in 0..pair.order() {
        states.order.push(element)?;
    }
    Ok(states)
}

/// The shape of a pair: each of its heaps is one count, and the monoid knows of neither.
fn shape_of_pair<A: Allocator + Copy>(alloc: A, pair: &RunningPair<A>) -> Result<Shape<A>, Halt> {
    let mut shape = Shape::new(alloc, pair.fold());
    shape.add(0, 1, 1, 0)?;
    shape.add(0, 1, 0, 1)?;
    Ok(shape)
}

/// The claim of a pair, if it isn't too large.
fn claim_of_pair<A: Allocator + Copy>(
    alloc: A,
    code: &Code,
    pair: &RunningPair<A>,
    work: &mut Work,
) -> Result<Option<ClaimValues<A>>, Halt> {
    let states = states_of_pair(alloc, pair)?;
    let shape = shape_of_pair(alloc, pair)?;
    let mut roots: Vec<usize, A> = Vec::new(alloc);
    roots.extend_from_slice(&states.order)?;
    let last = pair.generators().last();
    let elements = elements_of(alloc, &states, pair.generators(), roots, last, work)?;
    let (falling, rising) = pair.letters();
    let counted = [falling, rising];
    let sketch = Sketch {
        alloc,
        generators: pair.generators(),
        counted: &counted,
        shape: &shape,
        states: &states,
        elements: &elements,
    };
    sketch.claim(code, work)
}

/// The first presentation by two heaps that run against each other, as a wrong quotient shows them.
pub fn found_by_running<A: SmallAllocator + Copy>(
    alloc: A,
    code: &Code,
    quotient: &HeapQuotient<A>,
    last: usize,
    work: &mut Work,
) -> Result<Option<FoundPresentation<A>>, Halt> {
    let mut pairs = RunningPairs::new(alloc, code, quotient, last, work)?;
    for _ in 0..u64::MAX {
        let Some(pair) = pairs.go_on(work)? else {
            return Ok(None);
        };
        if let Some(claim) = claim_of_pair(alloc, code, &pair, work)? {
            let found = judged(alloc, &claim)?;
            if found.is_some() {
                return Ok(found);
            }
        }
    }
    Ok(None)
}
