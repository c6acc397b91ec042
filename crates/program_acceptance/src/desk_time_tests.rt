//! A check that many steps work goes on where it stood.
use crate::comparing::compare;
use crate::cyclic::cyclic;
use crate::desk_tests::{Said, take, work};
use desk::{Desk, Event};
use std::alloc::Global;

/// How many steps of 250 units of the first check are told that it is going, up to the first that
/// isn't.
fn count_at(desk: &mut Desk, steps: u32) -> u32 {
    for step in 0..steps {
        if work(desk, 1, 1, 250) != Said::Going {
            return step;
        }
    }
    steps
}

/// The same of a check of these bytes alone.
fn count_going(alloc: Global, bytes: Vec<u8>, steps: u32) -> u32 {
    let mut desk = Desk::new(alloc);
    let said = take(&mut desk, 1, Event::Open(bytes, 100000));
    let count = count_at(&mut desk, steps);
    if said == Said::Opened(1) { count } else { 0 }
}

/// The same of a check of the first format's largest order.
fn count_of_cyclic(alloc: Global) -> u32 {
    match cyclic(alloc, 256, true) {
        Some(bytes) => count_going(alloc, bytes, 64000),
        None => 0,
    }
}

/// The products of 256 elements take 256^3 units. If each step began the check anew, a text of more
/// than 2^16 bytes would be read 64,000 times, which takes longer than a test has.
#[test]
fn goes_on_where_it_stood(rt: HostRuntime) {
    compare(&rt, "steps", count_of_cyclic(rt.alloc()), 64000);
}
