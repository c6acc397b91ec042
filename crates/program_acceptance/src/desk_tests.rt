//! Two clients in turn, and sixteen clients on one certificate and on many.
use crate::certificates::{OF_0_3, OF_0_33, OF_0_75, RIGHT_UP_TO_8};
use crate::comparing::{bound, compare};
use allocation::SmallAllocator;
use checker::check;
use desk::{Client, Desk, Event, Reply};
use std::alloc::Global;

/// What a client is told; of a refusal or a fault its number.
#[derive(Clone, Copy, PartialEq, Eq)]
pub enum Said {
    Opened(u8),
    Going,
    Yes,
    No(u8),
    Refused(u8),
    /// The step couldn't be made, or something else is told.
    Nothing,
}

fn told<A: SmallAllocator>(reply: Reply<'_, A>) -> Said {
    match reply {
        Reply::Opened(number) => Said::Opened(number),
        Reply::Going => Said::Going,
        Reply::Yes(_) => Said::Yes,
        Reply::No(refusal) => Said::No(refusal.number()),
        Reply::Refused(fault) => Said::Refused(fault.number()),
        Reply::Dropped | Reply::Outcome(_) | Reply::Answer(_) => Said::Nothing,
    }
}

/// What the client is told at an event.
pub fn take<A: SmallAllocator + Copy>(desk: &mut Desk<A>, client: u8, event: Event<A>) -> Said {
    match Client::new(client) {
        Some(client) => told(desk.step(client, event)),
        None => Said::Nothing,
    }
}

/// A job of the client works.
pub fn work<A: SmallAllocator + Copy>(desk: &mut Desk<A>, client: u8, job: u8, units: u64) -> Said {
    take(desk, client, Event::Work(job, units))
}

/// A certificate, and the limit of its check.
pub type Claim = (&'static str, u32);

/// The client opens a job, with memory of its own for the bytes.
pub fn open<A: SmallAllocator + Copy>(
    alloc: A,
    desk: &mut Desk<A>,
    client: u8,
    claim: Claim,
) -> Said {
    match claim.0.as_bytes().to_vec(alloc) {
        Ok(bytes) => take(desk, client, Event::Open(bytes, claim.1)),
        Err(_) => Said::Nothing,
    }
}

/// Whether the client opens jobs from this number on up to four, and no fifth.
fn fills(alloc: Global, desk: &mut Desk, client: u8, claim: Claim, from: u8) -> bool {
    for number in from..5u8 {
        if open(alloc, desk, client, claim) != Said::Opened(number) {
            return false;
        }
    }
    open(alloc, desk, client, claim) == Said::Refused(20)
}

/// After how many steps a job ended, and what was said then; or that it is going.
pub type End = (u64, Said);

/// The first job of the client works once more, unless it has ended.
fn work_on<A: SmallAllocator + Copy>(desk: &mut Desk<A>, client: u8, units: u64, end: End) -> End {
    if end.1 == Said::Going {
        (end.0.saturating_add(1), work(desk, client, 1, units))
    } else {
        end
    }
}

/// The first jobs of the clients 1 and 2 work in turn, each by its units, to their ends.
pub fn in_turn<A: SmallAllocator + Copy>(
    desk: &mut Desk<A>,
    units: u64,
    units_of_two: u64,
) -> (End, End) {
    let mut one = (0, Said::Going);
    let mut two = (0, Said::Going);
    for _ in 1..50000u64 {
        one = work_on(desk, 1, units, one);
        two = work_on(desk, 2, units_of_two, two);
        if one.1 != Said::Going && two.1 != Said::Going {
            break;
        }
    }
    (one, two)
}

/// How many numbers are of clients just if they are from 1 to 16, from 0 on.
fn count_of_clients() -> u16 {
    for number in 0..=255u8 {
        if Client::new(number).is_some() != (number >= 1 && number <= 16) {
            return number as u16;
        }
    }
    256
}

const FIRST: Claim = (OF_0_75, 2048);

const SECOND: Claim = (RIGHT_UP_TO_8, 2048);

/// What is said where a check is opened alone, and how it ends, a unit at a time.
fn end_alone(alloc: Global) -> (Said, End) {
    let mut desk = Desk::new(alloc);
    let opened = open(alloc, &mut desk, 1, FIRST);
    (opened, in_turn(&mut desk, 1, 1000).0)
}

/// Whether a check beside another ends as alone, and the other within 32 times 1000 units.
fn ends_as_alone(alloc: Global, desk: &mut Desk, alone: End) -> bool {
    if open(alloc, desk, 1, FIRST) != Said::Opened(1)
        || open(alloc, desk, 2, SECOND) != Said::Opened(1)
    {
        return false;
    }
    let (one, two) = in_turn(desk, 1, 1000);
    one == alone && two.1 == Said::No(7) && two.0 <= 32
}

/// Whether a fifth job is refused to the one client, while the other goes on.
fn opens_no_fifth(alloc: Global, desk: &mut Desk) -> bool {
    fills(alloc, desk, 1, FIRST, 2)
        && work(desk, 2, 1, 1) == Said::No(7)
        && open(alloc, desk, 2, SECOND) == Said::Opened(2)
        && take(desk, 2, Event::Drop(0)) == Said::Refused(21)
}

/// Whether two clients get what each gets alone, and no fifth job.
fn work_in_turn(alloc: Global, alone: End) -> [bool; 2] {
    let mut desk = Desk::new(alloc);
    let as_alone = ends_as_alone(alloc, &mut desk, alone);
    [as_alone, opens_no_fifth(alloc, &mut desk)]
}

/// Each gets what it gets alone: a yes, within the bounds on what such a check costs.
#[test]
fn works_in_turn(rt: HostRuntime) {
    compare(&rt, "clients", count_of_clients(), 256);
    let (opened, alone) = end_alone(rt.alloc());
    let says_yes = [opened == Said::Opened(1), alone.1 == Said::Yes];
    compare(&rt, "alone", says_yes, [true; 2]);
    bound(&rt, "units", alone.0, 592, 49104);
    compare(&rt, "in turn", work_in_turn(rt.alloc(), alone), [true; 2]);
}

/// What each of the 64 jobs says to one more unit, if all say the same.
fn work_all(desk: &mut Desk) -> Said {
    let first = work(desk, 1, 1, 1);
    for other in 1..64u8 {
        if work(desk, other / 4 + 1, other % 4 + 1, 1) != first {
            return Said::Nothing;
        }
    }
    first
}

/// After how many units all jobs end with yes, and 0 if they don't.
fn units_of_all(desk: &mut Desk) -> u64 {
    for units in 1..100_000u64 {
        let said = work_all(desk);
        if said != Said::Going {
            return if said == Said::Yes { units } else { 0 };
        }
    }
    0
}

/// Whether each of 16 clients opens four jobs of the same bytes and limit.
fn fill_all(alloc: Global, desk: &mut Desk) -> bool {
    for client in 1..=16u8 {
        if !fills(alloc, desk, client, (OF_0_33, 100_000), 1) {
            return false;
        }
    }
    true
}

/// After how many units four jobs of each of 16 clients end with yes, and 0 if they don't.
fn units_of_sixteen(alloc: Global) -> u64 {
    let mut desk = Desk::new(alloc);
    let are_open = fill_all(alloc, &mut desk);
    let units = units_of_all(&mut desk);
    if are_open { units } else { 0 }
}

/// All jobs of the same bytes and limit say the same after as many units.
#[test]
fn counts_each_jobs_units(rt: HostRuntime) {
    bound(
        &rt,
        "units",
        units_of_sixteen(rt.alloc()),
        6 * 6 * 6 + 6 * 4,
        100_000,
    );
}

/// What a check alone says of the claim.
fn checked(alloc: Global, claim: Claim) -> Said {
    match check(alloc, claim.0.as_bytes(), claim.1) {
        Ok(_) => Said::Yes,
        Err(refusal) => Said::No(refusal.number()),
    }
}

/// The claim of a job, from 0 to 63: of each of four certificates with each limit from 1 to 16.
fn claim_of(job: u8) -> Claim {
    let bytes = match job % 4 {
        0 => OF_0_3,
        1 => OF_0_33,
        2 => OF_0_75,
        _ => RIGHT_UP_TO_8,
    };
    (bytes, (job / 4) as u32 + 1)
}

/// The job from 0 to 63 works: its client and its number are of the quotient and the rest by 4.
fn work_one(desk: &mut Desk, job: u8, units: u64) -> Said {
    work(desk, job / 4 + 1, job % 4 + 1, units)
}

/// Whether each client opens four jobs, all 64 of different claims.
fn opens_all(alloc: Global, desk: &mut Desk) -> bool {
    for job in 0..64u8 {
        if open(alloc, desk, job / 4 + 1, claim_of(job)) != Said::Opened(job % 4 + 1) {
            return false;
        }
    }
    true
}

/// How many of the jobs go on after so many units more.
fn count_going(desk: &mut Desk, units: u64) -> u8 {
    let mut count = 0u8;
    for job in 0..64u8 {
        if work_one(desk, job, units) == Said::Going {
            count = count.saturating_add(1);
        }
    }
    count
}

/// Whether all jobs end, worked in turn.
fn all_end(desk: &mut Desk) -> bool {
    for _ in 0..10000u16 {
        if count_going(desk, 100) == 0 {
            return true;
        }
    }
    false
}

/// How many jobs are told what a check alone says.
fn count_told(alloc: Global, desk: &mut Desk) -> u8 {
    let mut count = 0u8;
    for job in 0..64u8 {
        if work_one(desk, job, 0) == checked(alloc, claim_of(job)) {
            count = count.saturating_add(1);
        }
    }
    count
}

/// How many jobs of 64 different claims, worked in turn, are told what a check alone says, and 0 if
/// one isn't opened or doesn't end.
fn count_at(alloc: Global, desk: &mut Desk) -> u8 {
    if opens_all(alloc, desk) && all_end(desk) {
        count_told(alloc, desk)
    } else {
        0
    }
}

/// The same at a desk of their own.
fn count_of_different(alloc: Global) -> u8 {
    let mut desk = Desk::new(alloc);
    count_at(alloc, &mut desk)
}

/// Checks of different bytes or limits stand beside each other.
#[test]
fn works_different_checks_to_their_verdicts(rt: HostRuntime) {
    compare(&rt, "jobs", count_of_different(rt.alloc()), 64);
}
