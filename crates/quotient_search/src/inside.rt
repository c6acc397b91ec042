//! The lightest position in the portion with an option in the portion.
use crate::cells::{index, word};
use crate::dead::breaks_portion;
use crate::failing::{Failing, MOST_WEIGHT};
use crate::lightest::{Words, lightest_words};
use crate::quotient::{HeapQuotient, heap_weight};
use crate::work::{Halt, Means, Work};
use std::alloc::Allocator;

/// A heap beside an element, and its weight. No heap is 0.
#[derive(Clone, Copy)]
struct Beside {
    weight: u64,
    heap: usize,
    element: usize,
}

/// About how many steps it takes to look at the heap n beside each element.
pub fn cost_of_heap<A: Allocator>(quotient: &HeapQuotient<A>, n: usize) -> usize {
    let options = quotient.heap_moves(n).len();
    quotient.order.saturating_mul(options.saturating_add(1))
}

/// The lightest heap and element beside which the rule fails inside the portion.
fn lightest_breaking<A: Allocator>(
    quotient: &HeapQuotient<A>,
    weights: &[u64],
    work: &mut Work,
) -> Result<Beside, Halt> {
    let mut best = Beside {
        weight: u64::MAX,
        heap: 0,
        element: 0,
    };
    for n in 1..quotient.heaps.len().saturating_add(1) {
        work.spend(cost_of_heap(quotient, n))?;
        lighten_breaking(quotient, weights, n, &mut best);
    }
    Ok(best)
}

/// Takes the heap n beside the lightest element by which the rule fails, where it is lighter.
fn lighten_breaking<A: Allocator>(
    quotient: &HeapQuotient<A>,
    weights: &[u64],
    n: usize,
    best: &mut Beside,
) {
    for element in 0..quotient.order {
        let weight = word(weights, element).saturating_add(heap_weight(n));
        if weight < best.weight && breaks_portion(quotient, n, element) {
            *best = Beside {
                weight,
                heap: n,
                element,
            };
        }
    }
}

/// Adds the heaps of an element's lightest word.
fn push_word<A: Allocator>(
    words: &Words<A>,
    element: usize,
    order: usize,
    heaps: &mut Vec<usize, A>,
) -> Result<(), Halt> {
    let mut element = element;
    for _ in 0..order {
        if element == 0 {
            break;
        }
        heaps.push(index(&words.heaps, element))?;
        element = index(&words.before, element);
    }
    Ok(())
}

/// The lightest position in the portion with an option in the portion.
pub fn lightest_inside<A: Allocator + Copy>(
    means: &mut Means<'_, A>,
    quotient: &HeapQuotient<A>,
) -> Result<Option<Failing<A>>, Halt> {
    let words = lightest_words(means, quotient)?;
    let best = lightest_breaking(quotient, &words.weights, &mut means.work)?;
    if best.heap == 0 || best.weight > MOST_WEIGHT as u64 {
        return Ok(None);
    }
    failing_beside(means.alloc, &words, best, quotient.order)
}

/// A heap and an element's lightest word as a position.
fn failing_beside<A: Allocator + Copy>(
    alloc: A,
    words: &Words<A>,
    best: Beside,
    order: usize,
) -> Result<Option<Failing<A>>, Halt> {
    let mut heaps: Vec<usize, A> = Vec::new(alloc);
    heaps.push(best.heap)?;
    push_word(words, best.element, order, &mut heaps)?;
    Ok(Some(Failing {
        weight: best.weight as usize,
        heaps,
    }))
}
