//! Jobs with each growth of memory refused in turn.
use crate::comparing::compare;
use crate::transition_algebra_tests::Heaps;
use crate::{
    certificate_tests, compact_certificates_tests, guesses_tests, octal_code_tests,
    outcome_search_tests, pair_closure_tests, positions_tests, presentations_tests, streams_tests,
    third_format_lines_tests, transition_algebra_tests,
};
use allocation::SmallAllocator;
use devices::Ration;
use positions::Left;
use std::alloc::Global;

/// What may take memory.
#[derive(Clone, Copy)]
pub enum Job {
    Code,
    Outcome(&'static str),
    LargeOutcome,
    Sum,
    Move,
    Text,
    FewHeaps,
    MoveOfFew,
    MoveToThree,
    Table,
    Quotient,
    Certificate,
    Order,
    ThirdFormat,
    Products,
    Stream,
    Heaps(Heaps),
    Closure,
}

/// Whether the job ends right, or the number of its fault.
fn answer<A: SmallAllocator + Copy>(alloc: A, job: Job) -> Result<bool, u8> {
    match job {
        Job::Code => octal_code_tests::comes_back(alloc, b"0.75"),
        Job::Outcome(text) => outcome_search_tests::is_n(alloc, text),
        Job::LargeOutcome => outcome_search_tests::is_found(alloc),
        Job::Sum => positions_tests::twice(
            alloc,
            b"3 4 5 6 7 8",
            &[3, 3, 4, 4, 5, 5, 6, 6, 7, 7, 8, 8],
        ),
        Job::Move => positions_tests::leaves(
            alloc,
            b"0.75",
            b"1 1 1 1 1 1 1 1 5",
            (5, Left::Two(1, 3)),
            &[1, 1, 1, 1, 1, 1, 1, 1, 1, 3],
        ),
        Job::Text => positions_tests::is_read_as(
            alloc,
            b"30 4 200 1 2 3 5 6 7",
            "1 2 3 4 5 6 7 30 200",
        ),
        Job::FewHeaps => positions_tests::takes_a_ninth(alloc),
        Job::MoveOfFew => positions_tests::leaves(
            alloc,
            b"0.3",
            b"1 2 3 4 5 6 7 8",
            (8, Left::One(7)),
            &[1, 2, 3, 4, 5, 6, 7, 7],
        ),
        Job::MoveToThree => positions_tests::leaves(
            alloc,
            b"0.b",
            b"1 1 1 1 1 6",
            (6, Left::Three(1, 2, 2)),
            &[1, 1, 1, 1, 1, 1, 2, 2],
        ),
        Job::Table => presentations_tests::has_eight(alloc),
        Job::Quotient => guesses_tests::is_of_eight(alloc),
        Job::Certificate => certificate_tests::is_read(alloc),
        Job::Order => certificate_tests::is_refused(alloc),
        Job::ThirdFormat => third_format_lines_tests::is_read(alloc),
        Job::Products => compact_certificates_tests::of_nim_is_made(alloc),
        Job::Stream => streams_tests::is_read(alloc, b"abc", 100, b"abc"),
        Job::Heaps(heaps) => transition_algebra_tests::in_pieces(alloc, heaps, 7),
        Job::Closure => pair_closure_tests::ends(alloc),
    }
}

/// The answer with this growth refused, and whether that growth came.
fn answer_with(alloc: Global, job: Job, refused: u64) -> (Result<bool, u8>, bool) {
    let ration = Ration::new(alloc, refused);
    let answer = answer(&ration, job);
    (answer, ration.has_refused())
}

/// The first growth below `most` that doesn't come, if the job ends right then and is answered by
/// want of memory at each before.
fn first_not_needed(alloc: Global, job: Job, most: u64) -> Option<u64> {
    for n in 1..most {
        match answer_with(alloc, job, n) {
            (Ok(true), false) => return Some(n),
            (Err(9), true) => {}
            _ => return None,
        }
    }
    None
}

/// A job, the least growth that may not come, and the first that is too many. Up to eight heaps
/// take no memory, nor does a move after which there are eight, nor an order with nothing behind
/// it: in `FewHeaps` just the ninth heap does.
static ROWS: [(Job, u64, u64); 19] = [
    (Job::Code, 1, 9),
    (Job::Outcome("1 2 2"), 1, 99),
    (Job::Outcome("1 1 1 1 1 1 1 1 1 1 1 1"), 1, 99),
    (Job::Sum, 2, 99),
    (Job::Move, 2, 99),
    (Job::Text, 1, 99),
    (Job::FewHeaps, 2, 3),
    (Job::MoveOfFew, 1, 2),
    (Job::MoveToThree, 1, 2),
    (Job::Table, 1, 999),
    (Job::Quotient, 1, 100_000),
    (Job::Certificate, 6, 40),
    (Job::Order, 1, 2),
    (Job::ThirdFormat, 20, 100),
    (Job::Products, 5, 20),
    (Job::Stream, 2, 9),
    (Job::Heaps(Heaps::OfEight), 1, 1000),
    (Job::Heaps(Heaps::OfThreeParts), 1, 1000),
    (Job::Closure, 7, 100),
];

/// How many jobs need as many growths as they may, up to the first that doesn't.
fn count_held(alloc: Global, rows: &[(Job, u64, u64)]) -> usize {
    let mut count = 0usize;
    for (job, least, most) in rows {
        if first_not_needed(alloc, *job, *most) < Some(*least) {
            return count;
        }
        count = count.saturating_add(1);
    }
    count
}

#[test]
fn each_growth_may_be_refused(rt: HostRuntime) {
    compare(&rt, "ROWS", count_held(rt.alloc(), &ROWS), 19);
}

/// Nine heaps, so that each position that waits takes memory of its own.
#[test]
fn says_memory_on_a_large_position(rt: HostRuntime) {
    let answer = answer_with(rt.alloc(), Job::LargeOutcome, 10000);
    compare(&rt, "nine heaps", answer, (Err(9), true));
}
