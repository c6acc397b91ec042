//! What checks cost, however their units are cut.
use crate::certificates::{
    OF_0_3, OF_0_33, OF_0_75, OF_0_B, PART_OF_0_3, PART_OF_0_75, RIGHT_UP_TO_8,
};
use crate::comparing::compare;
use crate::let_go;
use checker::{Job, Progress};
use std::alloc::Global;

/// The number of a job that has not ended.
const GOING: u8 = 255;

/// The number of where a job stands, 0 for a yes.
fn number_of(progress: Progress<'_>) -> u8 {
    match progress {
        Progress::Going => GOING,
        Progress::Yes(_) => 0,
        Progress::No(refusal) => refusal.number(),
    }
}

/// Whether the job stands so.
fn stands(job: &Job, number: u8, spent: u64) -> bool {
    number_of(job.progress()) == number && job.spent() == spent
}

/// Gives a job so many units again and again until it ends, at most 100000 times. After how many
/// turns the units spent were those given.
fn work_to_the_end(job: &mut Job, units: u64) -> u64 {
    let mut counted = 0u64;
    for turn in 1..=100000u64 {
        let number = number_of(job.work(units));
        if job.spent() == turn.saturating_mul(units) {
            counted = counted.saturating_add(1);
        }
        if number != GOING {
            break;
        }
    }
    counted
}

/// A certificate and the limit, how many units are given at a turn and how many when the job begins
/// again, the number of the end, and the bounds on what is spent.
type Row = (&'static str, u32, u64, u64, u8, u64, u64);

/// With q the order, n0 the start, p the period, k + 1 the length of the code and B = 2·n0 + 2·p +
/// k, a check costs at most 2q³ + q² + q(n0 + p) + p² + (k + 1)B² + Bq² + B·limit + 16, and for a
/// yes at least q³ + q(n0 + p): what stands here was worked out by hand, and of 0.33 less than that
/// most. Of 0.b B is 3·n0 + 3·p + k, with (k + 1)B³ in place of (k + 1)B², and of a part its last
/// heap.
static ROWS: [Row; 16] = [
    (OF_0_3, 1, 1, 1, 8, 1, 179),
    (OF_0_3, 8, 1, 1, 0, 14, 228),
    (OF_0_33, 100, 1, 1, 0, 240, 1999),
    (OF_0_75, 2048, 1, 1, 0, 592, 49104),
    (RIGHT_UP_TO_8, 2048, 1000, 1000, 7, 1, 31312),
    ("mqc 1\n", 2048, 1, 1, 1, 1, 16),
    (OF_0_33, 100, u64::MAX, 7, 0, 240, 1999),
    (OF_0_75, 2048, u64::MAX, 1, 0, 592, 49104),
    (OF_0_75, 2048, u64::MAX, 7, 0, 592, 49104),
    (OF_0_75, 2048, u64::MAX, 1000, 0, 592, 49104),
    (RIGHT_UP_TO_8, 2048, u64::MAX, 1, 7, 1, 31312),
    (RIGHT_UP_TO_8, 2048, u64::MAX, 7, 7, 1, 31312),
    (RIGHT_UP_TO_8, 2048, u64::MAX, 1000, 7, 1, 31312),
    (OF_0_B, 8, 1, 7, 0, 14, 2166),
    (PART_OF_0_3, 8, 1, 7, 0, 14, 74),
    (PART_OF_0_75, 2048, 1, 7, 0, 584, 18264),
];

/// Whether the job ends so within the bounds. A turn spends its unit, and behind the end none is
/// spent.
fn ends(job: &mut Job, row: &Row) -> bool {
    let (_, _, units, _, number, least, most) = *row;
    let counted = work_to_the_end(job, units);
    let spent = job.spent();
    stands(job, number, spent)
        && number_of(job.work(1)) == number
        && job.spent() == spent
        && (units > 1 || counted == spent)
        && least <= spent
        && spent <= most
}

/// Whether the job, once it is to begin again, has spent nothing, and ends as it did.
fn ends_again(job: &mut Job, units: u64, number: u8) -> bool {
    let spent = job.spent();
    job.again();
    let begins = stands(job, GOING, 0);
    work_to_the_end(job, units);
    begins && stands(job, number, spent)
}

/// Whether the job runs as the row says, and once more.
fn ends_twice(job: &mut Job, row: &Row) -> bool {
    ends(job, row) && ends_again(job, row.3, row.4)
}

/// Whether a job runs as the row says.
fn runs(mut job: Job, row: &Row) -> bool {
    let is_so = ends_twice(&mut job, row);
    let_go(job);
    is_so
}

/// Whether the row holds.
fn is_held(alloc: Global, row: &Row) -> bool {
    match row.0.as_bytes().to_vec(alloc) {
        Ok(bytes) => runs(Job::open(alloc, bytes, row.1), row),
        Err(_) => false,
    }
}

/// How many rows hold, up to the first that doesn't.
fn count_held(alloc: Global, rows: &[Row]) -> usize {
    let mut count = 0usize;
    for row in rows {
        if !is_held(alloc, row) {
            return count;
        }
        count = count.saturating_add(1);
    }
    count
}

#[test]
fn costs_the_same_within_the_bounds(rt: HostRuntime) {
    compare(&rt, "ROWS", count_held(rt.alloc(), &ROWS), 16);
}
