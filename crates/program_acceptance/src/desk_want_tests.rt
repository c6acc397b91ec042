//! Clients with equal jobs, and want of memory at each growth of one of them.
use crate::certificates::OF_0_33;
use crate::comparing::bound;
use crate::desk_tests::{Claim, End, Said, in_turn, open, work};
use allocation::SmallAllocator;
use desk::Desk;
use devices::Ration;
use std::alloc::Global;

const SMALL: Claim = (OF_0_33, 1000);

/// Whether each other client is told yes.
fn others_go_on<A: SmallAllocator + Copy>(alloc: A, desk: &mut Desk<A>) -> bool {
    for client in 2..=16u8 {
        if open(alloc, desk, client, SMALL) != Said::Opened(1)
            || work(desk, client, 1, u64::MAX) != Said::Yes
        {
            return false;
        }
    }
    true
}

/// Whether the first client may be told so, of its open and of its work, where a growth was refused
/// to it or none was.
fn may_be_told(opened: Said, worked: Said, has_refused: bool) -> bool {
    if !has_refused {
        worked == Said::Yes
    } else if opened == Said::Opened(1) {
        worked == Said::No(9)
    } else {
        opened == Said::Refused(9) && worked == Said::Refused(21)
    }
}

/// Whether all are told what they may be, and whether a growth was refused to the first.
fn share<'a>(
    ample: &'a Ration<Global>,
    ration: &'a Ration<Global>,
    desk: &mut Desk<&'a Ration<Global>>,
) -> (bool, bool) {
    let opened = open(ample, desk, 1, SMALL);
    let worked = work(desk, 1, 1, u64::MAX);
    let has_refused = ration.has_refused();
    let is_fair = may_be_told(opened, worked, has_refused)
        && others_go_on(ample, desk)
        && work(desk, 1, 1, 0) == worked;
    (is_fair, has_refused)
}

/// Whether all are told what they may be, and whether the growth of this number was refused, to the
/// first and at all.
fn share_with(alloc: Global, refused: u64) -> (bool, bool, bool) {
    let (ample, ration) = (Ration::new(alloc, 0), Ration::new(alloc, refused));
    let mut desk = Desk::new(&ration);
    let (is_fair, has_refused) = share(&ample, &ration, &mut desk);
    (is_fair, has_refused, ration.has_refused())
}

/// The first growth that the first client doesn't need, if the others need none then, and all are
/// told what they may be, and else 0.
fn first_unshared(alloc: Global) -> u64 {
    for n in 1..400u64 {
        match share_with(alloc, n) {
            (true, false, false) => return n,
            (true, true, _) => {}
            _ => return 0,
        }
    }
    0
}

/// After the yes of one client's job the others' equal jobs take no memory; and where a growth was
/// refused to that one, they say yes.
#[test]
fn shares_a_check(rt: HostRuntime) {
    bound(&rt, "growths", first_unshared(rt.alloc()), 6, 400);
}

/// What two clients are told that open equal jobs, and how these end.
fn end_at<A: SmallAllocator + Copy>(ample: A, desk: &mut Desk<A>) -> ((Said, Said), (End, End)) {
    let first = open(ample, desk, 1, SMALL);
    let second = open(ample, desk, 2, SMALL);
    ((first, second), in_turn(desk, 50, 70))
}

/// The same, and whether the growth of this number was refused.
fn end_with(alloc: Global, refused: u64) -> ((Said, Said), (End, End), bool) {
    let (ample, ration) = (Ration::new(alloc, 0), Ration::new(alloc, refused));
    let mut desk = Desk::new(&ration);
    let (opened, ends) = end_at(&ample, &mut desk);
    (opened, ends, ration.has_refused())
}

/// Whether one of the jobs ended for want of memory, and the other as it should.
fn is_kept_to_one(ends: (End, End), wanted: (End, End)) -> bool {
    let is_to_one = ends.0.1 == Said::No(9) && ends.1 == wanted.1;
    is_to_one || ends.1.1 == Said::No(9) && ends.0 == wanted.0
}

/// Whether the jobs end as they should where the growth of this number is refused, and whether it
/// was.
fn are_kept(alloc: Global, refused: u64, wanted: (End, End)) -> (bool, bool) {
    let (opened, ends, has_refused) = end_with(alloc, refused);
    let are_kept = if has_refused {
        opened.0 == Said::Refused(9) || is_kept_to_one(ends, wanted)
    } else {
        ends.0 == wanted.0 && ends.1 == wanted.1
    };
    (are_kept && opened.1 == Said::Opened(1), has_refused)
}

/// The first growth that two equal jobs don't need, if they are kept apart at each before, and
/// else 0.
fn first_kept(alloc: Global, wanted: (End, End)) -> u64 {
    for n in 1..400u64 {
        match are_kept(alloc, n, wanted) {
            (true, false) => return n,
            (true, true) => {}
            _ => return 0,
        }
    }
    0
}

/// The same, if they say yes where none is refused.
fn first_not_needed(alloc: Global) -> u64 {
    let (opened, wanted, _) = end_with(alloc, 0);
    let are_opened = opened.0 == Said::Opened(1) && opened.1 == Said::Opened(1);
    if are_opened && wanted.0.1 == Said::Yes && wanted.1.1 == Said::Yes {
        first_kept(alloc, wanted)
    } else {
        0
    }
}

/// Want of memory in one client's work leaves the other's job its units and its answer.
#[test]
fn keeps_want_of_memory_to_one_job(rt: HostRuntime) {
    bound(&rt, "growths", first_not_needed(rt.alloc()), 6, 400);
}
