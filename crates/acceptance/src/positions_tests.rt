//! Options, moves, and the texts of positions.
use crate::comparing::compare;
use allocation::SmallAllocator;
use octal_code::Code;
use positions::{Left, Move, MoveFault, Position, apply, options};
use std::alloc::Global;

/// Whether a heap's options are listed so.
fn are_listed(alloc: Global, text: &str, heap: u64, wanted: &[Left]) -> bool {
    let Ok(code) = Code::read(text.as_bytes()) else {
        return false;
    };
    let listed: Result<Vec<Left>, _> = options(&code, heap).collect(alloc);
    match listed {
        Ok(all) => all.as_slice() == wanted,
        Err(_) => false,
    }
}

/// A code, a heap and its options.
static OPTIONS: [(&str, u64, &[Left]); 13] = [
    (
        "0.75",
        5,
        &[
            Left::One(4),
            Left::Two(1, 3),
            Left::Two(2, 2),
            Left::Two(1, 2),
        ],
    ),
    ("0.75", 2, &[Left::One(1), Left::Nothing]),
    ("0.75", 1, &[Left::Nothing]),
    ("4.1", 3, &[Left::Two(1, 2)]),
    ("4.1", 4, &[Left::Two(1, 3), Left::Two(2, 2)]),
    ("4.1", 1, &[Left::Nothing]),
    (
        "0.b",
        6,
        &[Left::One(5), Left::Three(1, 1, 3), Left::Three(1, 2, 2)],
    ),
    ("0.b", 4, &[Left::One(3), Left::Three(1, 1, 1)]),
    ("0.b", 1, &[Left::Nothing]),
    // after the splits of one digit, and before what the next digit leaves
    (
        "c.1c",
        5,
        &[
            Left::Two(1, 4),
            Left::Two(2, 3),
            Left::Three(1, 1, 3),
            Left::Three(1, 2, 2),
            Left::Two(1, 2),
            Left::Three(1, 1, 1),
        ],
    ),
    ("c.1c", 2, &[Left::Two(1, 1)]),
    ("8.1", 3, &[Left::Three(1, 1, 1)]),
    ("8.1", 2, &[]),
];

/// How many rows hold, up to the first that doesn't.
fn count_listed(alloc: Global, rows: &[(&str, u64, &[Left])]) -> usize {
    let mut held = 0usize;
    for (text, heap, wanted) in rows {
        if !are_listed(alloc, text, *heap, wanted) {
            return held;
        }
        held = held.saturating_add(1);
    }
    held
}

/// The first three options of a heap of 10^18.
fn far_options(text: &[u8]) -> [Option<Left>; 3] {
    match Code::read(text) {
        Ok(code) => {
            let mut far = options(&code, 1_000_000_000_000_000_000);
            [far.next(), far.next(), far.next()]
        }
        Err(_) => [None, None, None],
    }
}

#[test]
fn lists_options(rt: HostRuntime) {
    compare(&rt, "OPTIONS", count_listed(rt.alloc(), &OPTIONS), 13);
    let one = Left::One(999_999_999_999_999_999);
    let two = [
        Left::Two(1, 999_999_999_999_999_998),
        Left::Two(2, 999_999_999_999_999_997),
    ];
    let three = [
        Left::Three(1, 1, 999_999_999_999_999_997),
        Left::Three(1, 2, 999_999_999_999_999_996),
    ];
    compare(
        &rt,
        "0.75",
        far_options(b"0.75"),
        [Some(one), Some(two[0]), Some(two[1])],
    );
    compare(
        &rt,
        "0.b",
        far_options(b"0.b"),
        [Some(one), Some(three[0]), Some(three[1])],
    );
}

/// 64 heaps of 1.
const ONES: &[u8] =
    b"1 1 1 1 1 1 1 1 1 1 1 1 1 1 1 1 1 1 1 1 1 1 1 1 1 1 1 1 1 1 1 1 1 1 1 1 1 1 1 1 1 1 1 1 1 1 1 1 1 1 1 1 1 1 1 1 1 1 1 1 1 1 1 1";

/// 65 heaps of 1.
const ONE_MORE: &[u8] =
    b"1 1 1 1 1 1 1 1 1 1 1 1 1 1 1 1 1 1 1 1 1 1 1 1 1 1 1 1 1 1 1 1 1 1 1 1 1 1 1 1 1 1 1 1 1 1 1 1 1 1 1 1 1 1 1 1 1 1 1 1 1 1 1 1 1";

/// Whether the position of the bytes is written so, or the number of the fault.
pub fn is_read_as<A: SmallAllocator + Copy>(
    alloc: A,
    bytes: &[u8],
    wanted: &str,
) -> Result<bool, u8> {
    match Position::read(alloc, bytes) {
        Ok(position) => match position.text() {
            Ok(text) => Ok(text.as_str() == wanted),
            Err(memory) => Err(memory.number()),
        },
        Err(fault) => Err(fault.number()),
    }
}

/// A text, and how many heaps its position has or the number of the fault.
static TEXTS: [(&[u8], Result<usize, u8>); 9] = [
    (ONES, Ok(64)),
    (b"", Err(1)),
    (b"1 0", Err(1)),
    (b"01", Err(1)),
    (b"1  2", Err(1)),
    (b"1 ", Err(1)),
    (ONE_MORE, Err(2)),
    (b"1000000000000000001", Err(3)),
    (
        b"100000000000000000000000000000000000000000000000000000000000000000000 1",
        Err(3),
    ),
];

/// How many heaps the position of the bytes has, or the number of the fault.
fn count_of(alloc: Global, bytes: &[u8]) -> Result<usize, u8> {
    match Position::read(alloc, bytes) {
        Ok(position) => Ok(position.heaps().len()),
        Err(fault) => Err(fault.number()),
    }
}

/// How many rows hold, up to the first that doesn't.
fn count_read(alloc: Global, rows: &[(&[u8], Result<usize, u8>)]) -> usize {
    let mut held = 0usize;
    for (bytes, wanted) in rows {
        if count_of(alloc, bytes) != *wanted {
            return held;
        }
        held = held.saturating_add(1);
    }
    held
}

#[test]
fn reads_positions(rt: HostRuntime) {
    for (text, wanted) in [
        ("2 1 2", "1 2 2"),
        ("0", "0"),
        ("1000000000000000000 7", "7 1000000000000000000"),
    ] {
        compare(
            &rt,
            text,
            is_read_as(rt.alloc(), text.as_bytes(), wanted),
            Ok(true),
        );
    }
    compare(&rt, "TEXTS", count_read(rt.alloc(), &TEXTS), 9);
}

/// What the move from a heap leaves of the position.
fn moved<A: SmallAllocator + Copy>(
    alloc: A,
    code: &[u8],
    position: &Position<A>,
    step: (u64, Left),
) -> Result<Position<A>, u8> {
    let Ok(code) = Code::read(code) else {
        return Err(0);
    };
    let (heap, left) = step;
    match apply(alloc, &code, position, Move { heap, left }) {
        Ok(next) => Ok(next),
        Err(fault) => Err(fault.number()),
    }
}

/// Whether the move from a heap of the position leaves these heaps, or the number of the fault.
pub fn leaves<A: SmallAllocator + Copy>(
    alloc: A,
    code: &[u8],
    text: &[u8],
    step: (u64, Left),
    wanted: &[u64],
) -> Result<bool, u8> {
    match Position::read(alloc, text) {
        Ok(position) => match moved(alloc, code, &position, step) {
            Ok(next) => Ok(next.heaps() == wanted),
            Err(number) => Err(number),
        },
        Err(fault) => Err(fault.number()),
    }
}

/// A code, a position, a move, and whether it leaves the heaps or the number of the fault.
type Made = (
    &'static [u8],
    &'static [u8],
    (u64, Left),
    Result<bool, u8>,
    &'static [u64],
);

/// 1 is no such heap, and 2 is a move that isn't allowed.
static MOVES: [Made; 7] = [
    (b"0.75", b"1 5", (5, Left::Two(1, 3)), Ok(true), &[1, 1, 3]),
    (b"0.75", b"1 5", (4, Left::One(3)), Err(1), &[]),
    (b"0.75", b"1 5", (5, Left::One(3)), Err(2), &[]),
    (
        b"0.b",
        b"6",
        (6, Left::Three(1, 2, 2)),
        Ok(true),
        &[1, 2, 2],
    ),
    (b"0.b", b"6", (6, Left::Three(1, 1, 4)), Err(2), &[]),
    (b"0.b", b"6", (6, Left::Three(2, 2, 1)), Err(2), &[]),
    (b"0.b", b"6", (6, Left::Two(2, 3)), Err(2), &[]),
];

/// How many rows hold, up to the first that doesn't.
fn count_made(alloc: Global, rows: &[Made]) -> usize {
    let mut held = 0usize;
    for (code, text, step, wanted, heaps) in rows {
        if leaves(alloc, code, text, *step, heaps) != *wanted {
            return held;
        }
        held = held.saturating_add(1);
    }
    held
}

#[test]
fn makes_moves(rt: HostRuntime) {
    let numbers = [
        MoveFault::NoSuchHeap.number(),
        MoveFault::NotAllowed.number(),
    ];
    compare(&rt, "faults", numbers, [1, 2]);
    compare(&rt, "MOVES", count_made(rt.alloc(), &MOVES), 7);
}

/// Whether the position added to itself has these heaps, or the number of the fault.
pub fn twice<A: SmallAllocator + Copy>(alloc: A, text: &[u8], wanted: &[u64]) -> Result<bool, u8> {
    match Position::read(alloc, text) {
        Ok(position) => match position.add(&position) {
            Ok(sum) => Ok(sum.heaps() == wanted),
            Err(memory) => Err(memory.number()),
        },
        Err(fault) => Err(fault.number()),
    }
}

/// How long the text is.
fn length_of_text(position: &Position) -> Option<usize> {
    match position.text() {
        Ok(text) => Some(text.as_bytes().len()),
        Err(_) => None,
    }
}

/// How many heaps a copy has with one more.
fn one_more(alloc: Global, position: &Position) -> Option<usize> {
    match position.copied(alloc) {
        Ok(mut copy) => match copy.push(8) {
            Ok(()) => Some(copy.heaps().len()),
            Err(_) => None,
        },
        Err(_) => None,
    }
}

/// How many heaps stay after a heap of 7 became one of 6.
fn moved_on(alloc: Global, position: &Position) -> Option<usize> {
    match moved(alloc, b"0.3", position, (7, Left::One(6))) {
        Ok(next) => Some(next.heaps().len()),
        Err(_) => None,
    }
}

/// Whether so many heaps of 7 are written, copied and moved on.
fn suffices(alloc: Global, position: &Position, count: usize) -> bool {
    length_of_text(position) == Some(count.saturating_mul(2).saturating_sub(1))
        && one_more(alloc, position) == Some(count.saturating_add(1))
        && moved_on(alloc, position) == Some(count)
}

/// How many positions of 9, 18, 36 heaps and so on are made and written, up to 14.
fn count_doubled(alloc: Global) -> usize {
    let Ok(mut position) = Position::read(alloc, b"7 7 7 7 7 7 7 7 7") else {
        return 0;
    };
    let mut count = 9usize;
    for doubled in 0..14usize {
        if !suffices(alloc, &position, count) {
            return doubled;
        }
        match position.add(&position) {
            Ok(sum) => position = sum,
            Err(_) => return doubled,
        }
        count = count.saturating_mul(2);
    }
    14
}

/// Past what lies in a position itself, past the 64 sizes of a text that is read, past 2^16 bytes
/// and past 2^16 heaps.
#[test]
fn memory_suffices_for_many_heaps(rt: HostRuntime) {
    compare(&rt, "doubled", count_doubled(rt.alloc()), 14);
}

/// Four heaps read, added to themselves, and copied.
fn eight<A: SmallAllocator + Copy>(alloc: A) -> Option<Position<A>> {
    match Position::read(alloc, b"1 2 3 7") {
        Ok(four) => match four.add(&four) {
            Ok(eight) => eight.copied(alloc).ok(),
            Err(_) => None,
        },
        Err(_) => None,
    }
}

/// Whether these eight take one more heap, or the number of the fault, if they stay then; it is 0
/// where they aren't made.
pub fn takes_a_ninth<A: SmallAllocator + Copy>(alloc: A) -> Result<bool, u8> {
    match eight(alloc) {
        Some(mut eight) => match eight.push(4) {
            Ok(()) => Ok(eight.heaps().len() == 9),
            Err(memory) => {
                let stay = eight.heaps() == [1u64, 1, 2, 2, 3, 3, 7, 7].as_slice();
                Err(if stay { memory.number() } else { 0 })
            }
        },
        None => Err(0),
    }
}
