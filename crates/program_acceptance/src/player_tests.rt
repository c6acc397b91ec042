//! What certified quotients say of positions, also of those with heaps of any size.
use crate::certificates::{OF_0_75, OF_0_B, PART_OF_0_75};
use crate::comparing::compare;
use checker::{Certified, check};
use player::{Outcome, fits, looks, outcome, value};
use positions::{Left, Position};
use std::alloc::Global;

const LARGE: u64 = 1_000_000_000_000_000_000;

/// A certificate, a position, and its value and its outcome, if the certificate speaks of it.
type Row = (&'static str, &'static [u8], Option<(u16, Outcome)>);

static ROWS: [Row; 12] = [
    (OF_0_75, b"0", Some((0, Outcome::N))),
    (OF_0_75, b"1", Some((1, Outcome::P))),
    (OF_0_75, b"1 9", Some((7, Outcome::P))),
    (OF_0_75, b"1000000000000000000", Some((2, Outcome::N))),
    (OF_0_B, b"4", Some((0, Outcome::N))),
    (OF_0_B, b"1 1 1", Some((1, Outcome::P))),
    (OF_0_B, b"2 1000000000000000000", Some((0, Outcome::N))),
    (PART_OF_0_75, b"0", Some((0, Outcome::N))),
    (PART_OF_0_75, b"2 5", Some((4, Outcome::N))),
    (PART_OF_0_75, b"8 8", Some((6, Outcome::P))),
    (PART_OF_0_75, b"9", None),
    (PART_OF_0_75, b"1 8 9", None),
];

/// The value and the outcome of the position, if the certificate speaks of it.
fn told(certified: &Certified, position: &Position) -> Option<(u16, Outcome)> {
    if fits(certified, position) {
        Some((value(certified, position), outcome(certified, position)))
    } else {
        None
    }
}

/// Whether what is told of the position is so.
fn is_told(
    alloc: Global,
    certified: &Certified,
    text: &[u8],
    wanted: Option<(u16, Outcome)>,
) -> bool {
    match Position::read(alloc, text) {
        Ok(position) => told(certified, &position) == wanted,
        Err(_) => false,
    }
}

/// Whether the row holds.
fn is_held(alloc: Global, row: &Row) -> bool {
    match check(alloc, row.0.as_bytes(), 1000) {
        Ok(certified) => is_told(alloc, &certified, row.1, row.2),
        Err(_) => false,
    }
}

/// How many rows hold, up to the first that doesn't.
fn count_held(alloc: Global, rows: &[Row]) -> usize {
    let mut count = 0usize;
    for row in rows {
        if !is_held(alloc, row) {
            return count;
        }
        count = count.saturating_add(1);
    }
    count
}

/// Which options of a large heap are looked at.
fn looked_at(alloc: Global, certified: &Certified) -> Option<Vec<Left>> {
    if certified.cert().heaps() > 0 {
        return None;
    }
    let listed: Result<Vec<Left>, _> = looks(certified, LARGE).collect(alloc);
    listed.ok()
}

/// The same under the certificate.
fn looked_at_by(alloc: Global, held: &str) -> Option<Vec<Left>> {
    match check(alloc, held.as_bytes(), 1000) {
        Ok(certified) => looked_at(alloc, &certified),
        Err(_) => None,
    }
}

/// Whether few options are looked at in 0.75: with 1 taken away one heap or two may stay, with 2
/// two; of the splits those with a smaller part up to 9.
fn looks_at_few(alloc: Global) -> bool {
    match looked_at_by(alloc, OF_0_75) {
        Some(all) => {
            (all.len() == 19)
                && all.first() == Some(&Left::One(LARGE - 1))
                && all.last() == Some(&Left::Two(9, LARGE - 11))
        }
        None => false,
    }
}

/// Whether just these are looked at in 0.b: both smaller parts are 1 or 2.
fn looks_at_four(alloc: Global) -> bool {
    let few = [
        Left::One(LARGE - 1),
        Left::Three(1, 1, LARGE - 3),
        Left::Three(1, 2, LARGE - 4),
        Left::Three(2, 2, LARGE - 5),
    ];
    match looked_at_by(alloc, OF_0_B) {
        Some(all) => all.as_slice() == few.as_slice(),
        None => false,
    }
}

#[test]
fn has_values_and_outcomes(rt: HostRuntime) {
    compare(&rt, "0.75", looks_at_few(rt.alloc()), true);
    compare(&rt, "0.b", looks_at_four(rt.alloc()), true);
    compare(&rt, "ROWS", count_held(rt.alloc(), &ROWS), 12);
}
