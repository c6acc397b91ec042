//! Whether a shape fits the outcomes.
use crate::outcomes::{Outcomes, UNKNOWN, View};
use crate::shapes::Shape;
use quotient_search::{Halt, Work};
use running_pairs::{at, byte, put_byte};
use std::alloc::Allocator;

/// The most outcomes of a shape.
const MOST_CELLS: usize = 20_000_000;

/// Where counts lie in a shape: their combination in the monoid, and the number of their place.
#[derive(Clone, Copy, Debug, PartialEq, Eq)]
pub struct Spot {
    pub combination: usize,
    pub place: usize,
}

/// Where counts lie.
pub fn spot_of<A: Allocator>(view: &View<'_, A>, shape: &Shape<A>, counts: usize) -> Spot {
    let mut combination = 0usize;
    let mut factor = 1usize;
    let mut down = 0usize;
    let mut up = 0usize;
    for i in 0..shape.rank() {
        let count = view.layout.count(counts, i);
        let folded = shape.folded(i, count).wrapping_mul(factor);
        combination = combination.wrapping_add(folded);
        factor = factor.wrapping_mul(shape.span(i));
        down = down.wrapping_add(count.wrapping_mul(at(&shape.downs, i)));
        up = up.wrapping_add(count.wrapping_mul(at(&shape.ups, i)));
    }
    Spot {
        combination,
        place: shape.fold.number(shape.fold.place(down, up)),
    }
}

/// How many outcomes a shape has, for so many elements.
pub fn cells<A: Allocator>(shape: &Shape<A>, elements: usize) -> usize {
    shape
        .combinations()
        .saturating_mul(shape.fold.places())
        .saturating_mul(elements)
}

/// Whether no two outcomes contradict each other in a shape.
pub fn fits<A: Allocator + Copy>(
    view: &View<'_, A>,
    outcomes: &Outcomes<A>,
    shape: &Shape<A>,
    work: &mut Work,
) -> Result<bool, Halt> {
    let elements = view.base.count();
    let size = cells(shape, elements);
    if size > MOST_CELLS {
        return Ok(false);
    }
    work.spend(size / 16)?;
    let mut seen: Vec<u8, A> = vec![in view.alloc; UNKNOWN; size]?;
    for counts in 0..view.layout.places.len() {
        work.spend(elements)?;
        let spot = spot_of(view, shape, counts);
        let row = spot
            .combination
            .wrapping_mul(shape.fold.places())
            .wrapping_add(spot.place);
        if !fits_at(
            view,
            outcomes,
            counts,
            row.wrapping_mul(elements),
            &mut seen,
        ) {
            return Ok(false);
        }
    }
    Ok(true)
}

/// Whether the outcomes beside counts contradict none that were seen. They are noted from a place on.
fn fits_at<A: Allocator>(
    view: &View<'_, A>,
    outcomes: &Outcomes<A>,
    counts: usize,
    from: usize,
    seen: &mut Vec<u8, A>,
) -> bool {
    let place = at(&view.layout.places, counts);
    for number in 0..view.base.count() {
        let outcome = outcomes.get(number, place);
        if outcome == UNKNOWN {
            continue;
        }
        let to = from.wrapping_add(number);
        let before = byte(seen, to);
        if before == UNKNOWN {
            put_byte(seen, to, outcome);
        } else if before != outcome {
            return false;
        }
    }
    true
}
