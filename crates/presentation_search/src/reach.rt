//! How far words and contexts have to be looked at. This is no matter of promises: if it isn't far enough, the check
//! refuses what is found.
use crate::counts::{index, small};
use crate::values::{Value, ValueTable};
use std::alloc::Allocator;

/// The largest number that is reckoned with.
const LARGEST: u32 = 4096;

/// The greatest common divisor.
fn common(one: u32, other: u32) -> u32 {
    let (mut great, mut small) = (one, other);
    for _ in 0..64 {
        if small == 0 {
            break;
        }
        (great, small) = (small, great % small);
    }
    great
}

/// The least common multiple, and not more than the largest number that is reckoned with.
pub fn multiple(one: u32, other: u32) -> u32 {
    let divisor = common(one, other);
    if divisor == 0 {
        return 0;
    }
    (one / divisor).saturating_mul(other).min(LARGEST)
}

/// From how many copies of a heap on its values come again but for differences, and after how many.
pub fn cycle_of<A: Allocator>(values: &ValueTable<A>, heap: Value) -> (u32, u32) {
    let (mut from, mut period) = values.cycle_of(heap.element);
    if heap.counts.down > 0 || heap.counts.up > 0 {
        from = from.max(index(values.fold, heap.counts));
        period = multiple(period, small(values.fold.step));
    }
    (from, period)
}

/// From which difference of counts on outcomes repeat, after how much, and how far a heap leads at most.
#[derive(Clone, Copy)]
struct Reach {
    far: u32,
    period: u32,
    most: u32,
}

/// The period of differences.
fn period_of<A: Allocator>(values: &ValueTable<A>, heaps: &[Value]) -> u32 {
    let mut period = small(values.fold.modulus);
    for heap in heaps.iter() {
        let apart = heap.counts.apart();
        if apart > 0 {
            let (_, own) = cycle_of(values, *heap);
            period = multiple(period, own.saturating_mul(apart));
        }
    }
    period
}

/// How far copies lead before their values come again, downwards or upwards.
fn far_to<A: Allocator>(values: &ValueTable<A>, heaps: &[Value], is_up: bool, period: u32) -> u32 {
    let mut far = 0u32;
    for heap in heaps.iter() {
        let counts = heap.counts;
        if counts.apart() > 0 && (counts.up > counts.down) == is_up {
            let (from, _) = cycle_of(values, *heap);
            let own = from.saturating_mul(counts.apart()).saturating_add(period);
            far = far.saturating_add(own);
        }
    }
    far
}

/// How far heaps lead.
fn reach_of<A: Allocator>(values: &ValueTable<A>, heaps: &[Value]) -> Reach {
    let mut most = 0u32;
    for heap in heaps.iter() {
        most = most.max(heap.counts.apart());
    }
    if most == 0 {
        return Reach {
            far: 0,
            period: 0,
            most: 0,
        };
    }
    let period = period_of(values, heaps);
    let down = far_to(values, heaps, false, period);
    let up = far_to(values, heaps, true, period);
    let tops = small(values.fold.down_top.max(values.fold.up_top));
    Reach {
        far: down.max(up).max(tops).min(LARGEST),
        period,
        most,
    }
}

/// How far apart downs and ups may be of the words that are looked at, and of contexts.
#[derive(Clone, Copy)]
pub struct Reaches {
    pub words: u32,
    pub contexts: u32,
}

/// How far words of some heaps, and contexts of them, are looked at, at an attempt.
pub fn reaches_of<A: Allocator>(values: &ValueTable<A>, heaps: &[Value], attempt: u32) -> Reaches {
    let reach = reach_of(values, heaps);
    let near = reach.far.saturating_add(reach.period);
    let words = match attempt {
        0 => near,
        1 => near.saturating_mul(2),
        _ => reach
            .most
            .saturating_mul(reach.most)
            .saturating_add(1)
            .saturating_mul(reach.period)
            .saturating_add(reach.far.saturating_mul(2))
            .saturating_mul(2)
            .saturating_add(2),
    };
    Reaches {
        words,
        contexts: words.saturating_add(near),
    }
}
