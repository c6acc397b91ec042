//! Certificates against their games, by loops of their own.
use crate::certificates::{
    LIMIT, OF_0_1, OF_0_3, OF_0_33, OF_0_75, OF_0_B, PART_OF_0_3, PART_OF_0_75,
};
use crate::comparing::compare;
use certificate::Cert;
use checker::{Certified, check};
use outcome_search::{Outcome, outcome};
use player::fits;
use positions::{LARGEST_HEAP, Position};
use std::alloc::Global;

fn times(cert: &Cert, x: u16, y: u16) -> u16 {
    let at = x as usize * cert.order() as usize + y as usize;
    cert.rows().get(at).copied().unwrap_or(0)
}

/// The element of the heap, or 0 where it has none.
fn element(cert: &Cert, heap: u64) -> u16 {
    let last = cert.phi().heaps();
    if heap >= 1 && (last == 0 || heap <= last) {
        cert.phi().at(heap)
    } else {
        0
    }
}

/// The product of x and the elements of the heaps.
fn value(cert: &Cert, x: u16, heaps: &[u64]) -> u16 {
    let mut product = x;
    for heap in heaps {
        product = times(cert, product, element(cert, *heap));
    }
    product
}

/// Adds a heap, and takes it from the room.
fn add(heaps: &mut Vec<u64>, room: &mut u64, heap: u64) -> bool {
    *room = room.saturating_sub(heap);
    heaps.push(heap).is_ok()
}

/// Takes a heap away, and gives it to the room.
fn take(heaps: &mut Vec<u64>, room: &mut u64) -> u64 {
    let last = heaps.pop().unwrap_or(0);
    *room = room.saturating_add(last);
    last
}

/// The next rising list of sizes up to `most` that has room.
fn next(heaps: &mut Vec<u64>, room: &mut u64, most: u64) -> bool {
    let last = heaps.last().copied().unwrap_or(1);
    if last <= *room {
        return add(heaps, room, last);
    }
    for _ in 0..heaps.len() {
        let last = take(heaps, room);
        if last < most.min(*room) {
            return add(heaps, room, last.saturating_add(1));
        }
    }
    false
}

/// Adds the heaps to the position.
fn push_all(position: &mut Position, heaps: &[u64]) -> bool {
    for heap in heaps {
        if *heap >= 1 && *heap <= LARGEST_HEAP && position.push(*heap).is_err() {
            return false;
        }
    }
    true
}

/// Whether the search and the player find this of the position.
fn find(alloc: Global, certified: &Certified, position: &Position, wanted: Outcome) -> bool {
    outcome(alloc, certified.cert().code(), position, 65536) == Ok(wanted)
        && fits(certified, position)
        && player::outcome(certified, position) == wanted
}

/// Whether the search and the player find what the values say of the position.
fn agree(alloc: Global, certified: &Certified, heaps: &[u64]) -> bool {
    let cert = certified.cert();
    let is_p = cert.portion().contains(&value(cert, 0, heaps));
    let wanted = if is_p { Outcome::P } else { Outcome::N };
    let mut position = Position::new(alloc);
    push_all(&mut position, heaps) && find(alloc, certified, &position, wanted)
}

/// How many positions there are of heaps up to `most` and up to `room` in all, from the list on, if
/// all agree at each, and else 0.
fn count_from(
    alloc: Global,
    certified: &Certified,
    heaps: &mut Vec<u64>,
    most: u64,
    room: u64,
) -> usize {
    let mut room = room;
    for count in 1..10000usize {
        if !agree(alloc, certified, heaps) {
            return 0;
        }
        if !next(heaps, &mut room, most) {
            return count;
        }
    }
    0
}

/// The same from the empty list on.
fn count_all(alloc: Global, certified: &Certified, most: u64, room: u64) -> usize {
    let mut heaps = Vec::new(alloc);
    count_from(alloc, certified, &mut heaps, most, room)
}

/// The same of the quotient that the file has, and 0 if it has none.
fn count_of(alloc: Global, held: &str, most: u64, room: u64) -> usize {
    match check(alloc, held.as_bytes(), LIMIT) {
        Ok(certified) => count_all(alloc, &certified, most, room),
        Err(_) => 0,
    }
}

/// A certificate, the last heap, the most heaps in all, and how many positions there are of them.
type Right = (&'static str, u64, u64, usize);

/// How many certificates the search and the player agree with at each position, up to the first that
/// they don't agree with.
fn count_agreed(alloc: Global, rows: &[Right]) -> usize {
    let mut count = 0usize;
    for (held, most, room, positions) in rows {
        if count_of(alloc, held, *most, *room) != *positions {
            return count;
        }
        count = count.saturating_add(1);
    }
    count
}

static RIGHT: [Right; 7] = [
    (OF_0_3, 20, 20, 2714),
    (OF_0_33, 20, 20, 2714),
    (OF_0_75, 20, 20, 2714),
    (OF_0_1, 20, 20, 2714),
    (OF_0_B, 12, 12, 272),
    (PART_OF_0_3, 2, 20, 121),
    (PART_OF_0_75, 8, 12, 258),
];

#[test]
fn searches_agree_with_values(rt: HostRuntime) {
    compare(&rt, "RIGHT", count_agreed(rt.alloc(), &RIGHT), 7);
}
