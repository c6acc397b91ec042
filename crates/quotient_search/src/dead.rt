//! Dead contexts: the elements beside which a position's value is outside the portion, and so is
//! that of each of its options. There the rule that a position without a P-option is a P-position
//! would fail.
use crate::cells::{WORD_BITS, at, bit, put_word, set_bit, word, words_for};
use crate::quotient::HeapQuotient;
use crate::work::Halt;
use std::alloc::Allocator;

/// How many words a set of elements has.
pub fn words_of<A: Allocator>(quotient: &HeapQuotient<A>) -> usize {
    words_for(quotient.order)
}

/// Whether the heap n beside an element is dead: it and its options are outside the portion.
fn is_dead<A: Allocator>(quotient: &HeapQuotient<A>, n: usize, element: usize) -> bool {
    if quotient.is_in_portion(quotient.times(element, quotient.heap(n))) {
        return false;
    }
    for option in quotient.heap_moves(n) {
        if quotient.is_in_portion(quotient.times(element, *option as usize)) {
            return false;
        }
    }
    true
}

/// The dead contexts of the heap n.
pub fn dead_of_heap<A: Allocator + Copy>(
    alloc: A,
    quotient: &HeapQuotient<A>,
    n: usize,
) -> Result<Vec<u64, A>, Halt> {
    let mut set: Vec<u64, A> = vec![in alloc; 0u64; words_of(quotient)]?;
    for element in 0..quotient.order {
        if is_dead(quotient, n, element) {
            set_bit(&mut set, element);
        }
    }
    Ok(set)
}

/// A value with dead contexts.
#[derive(Clone, Copy)]
pub struct Dead<'a> {
    pub value: usize,
    pub set: &'a [u64],
}

/// A word of the dead contexts of a sum.
#[inline]
fn word_of_sum(products: &[u16], order: usize, x: Dead<'_>, y: Dead<'_>, place: usize) -> u64 {
    let by_x = x.value.wrapping_mul(order);
    let by_y = y.value.wrapping_mul(order);
    let mut bits = 0u64;
    for i in 0..WORD_BITS {
        let z = place.wrapping_mul(WORD_BITS).wrapping_add(i);
        if z >= order {
            break;
        }
        if bit(x.set, at(products, by_y.wrapping_add(z)))
            && bit(y.set, at(products, by_x.wrapping_add(z)))
        {
            bits |= 1u64 << i;
        }
    }
    bits
}

/// Writes the dead contexts of the sum of two positions. Answers whether there is any.
pub fn dead_of_sum<A: Allocator>(
    quotient: &HeapQuotient<A>,
    x: Dead<'_>,
    y: Dead<'_>,
    sum: &mut Vec<u64, A>,
) -> bool {
    let mut any = false;
    for place in 0..sum.len() {
        let bits = word_of_sum(&quotient.products, quotient.order, x, y, place);
        put_word(sum, place, bits);
        any |= bits != 0;
    }
    any
}

/// Whether a set is empty.
pub fn is_empty(set: &[u64]) -> bool {
    set.iter().all(|bits| *bits == 0)
}

/// Whether the first set lies within the second.
pub fn is_within(one: &[u64], other: &[u64]) -> bool {
    for (place, bits) in one.iter().enumerate() {
        if *bits & !word(other, place) != 0 {
            return false;
        }
    }
    true
}

/// Whether, beside each element with which the heap n is in the portion, its options are outside.
pub fn leaves_portion<A: Allocator>(quotient: &HeapQuotient<A>, n: usize) -> bool {
    for element in 0..quotient.order {
        if breaks_portion(quotient, n, element) {
            return false;
        }
    }
    true
}

/// Whether the heap n beside an element is in the portion, and so is an option of the heap.
pub fn breaks_portion<A: Allocator>(quotient: &HeapQuotient<A>, n: usize, element: usize) -> bool {
    if !quotient.is_in_portion(quotient.times(element, quotient.heap(n))) {
        return false;
    }
    for option in quotient.heap_moves(n) {
        if quotient.is_in_portion(quotient.times(element, *option as usize)) {
            return true;
        }
    }
    false
}
