//! Jobs with each growth of memory refused in turn.
use crate::certificates::OF_0_33;
use crate::comparing::bound;
use crate::cyclic::cyclic;
use crate::{checks, scripts, verdicts_tests};
use allocation::SmallAllocator;
use devices::Ration;
use std::alloc::Global;

/// What may take memory.
#[derive(Clone, Copy)]
enum Job<'a> {
    /// The check of a certificate.
    Yes,
    /// The check of bytes whose rule fails at a position of many heaps.
    Refuted(&'a [u8]),
    Script,
    /// A check from stream to stream.
    Streams,
}

/// Whether the job ends right, or the number of its fault. A sink takes from `ample`.
fn answer<A: SmallAllocator + Copy>(alloc: A, ample: Global, job: Job<'_>) -> Result<bool, u8> {
    match job {
        Job::Yes => checks::has_order_6(alloc, OF_0_33.as_bytes()),
        Job::Refuted(bytes) => checks::is_refuted(alloc, bytes),
        Job::Script => scripts::has_six_steps(alloc),
        Job::Streams => verdicts_tests::is_checked(alloc, ample),
    }
}

/// The answer with this growth refused, and whether that growth came.
fn answer_with(alloc: Global, job: Job<'_>, refused: u64) -> (Result<bool, u8>, bool) {
    let ration = Ration::new(alloc, refused);
    let answer = answer(&ration, alloc, job);
    (answer, ration.has_refused())
}

/// The first growth below `most` that doesn't come, if the job ends right then and is answered by
/// want of memory at each before, and else 0.
fn first_not_needed(alloc: Global, job: Job<'_>, most: u64) -> u64 {
    for n in 1..most {
        match answer_with(alloc, job, n) {
            (Ok(true), false) => return n,
            (Err(9), true) => {}
            _ => return 0,
        }
    }
    0
}

/// The first growth below 400 that the check of a certificate over a group doesn't need, or 0.
fn first_of_group(alloc: Global, but_the_last: bool) -> u64 {
    match cyclic(alloc, 16, but_the_last) {
        Some(text) => first_not_needed(alloc, Job::Refuted(&text), 400),
        None => 0,
    }
}

#[test]
fn each_growth_may_be_refused(rt: HostRuntime) {
    bound(
        &rt,
        "a yes",
        first_not_needed(rt.alloc(), Job::Yes, 200),
        6,
        200,
    );
    bound(&rt, "outside", first_of_group(rt.alloc(), true), 21, 400);
    bound(&rt, "inside", first_of_group(rt.alloc(), false), 21, 400);
    bound(
        &rt,
        "a script",
        first_not_needed(rt.alloc(), Job::Script, 100),
        1,
        100,
    );
    bound(
        &rt,
        "streams",
        first_not_needed(rt.alloc(), Job::Streams, 2000),
        1,
        2000,
    );
}
