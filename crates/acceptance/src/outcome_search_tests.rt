//! Outcomes of worked positions, and the budget.
use crate::comparing::compare;
use allocation::SmallAllocator;
use octal_code::Code;
use outcome_search::{Outcome, SearchFault, outcome};
use positions::Position;
use std::alloc::Global;

/// The outcome of the position.
fn outcome_of<A: SmallAllocator + Copy>(
    alloc: A,
    code: &str,
    text: &str,
    budget: u32,
) -> Result<Outcome, SearchFault> {
    let Ok(code) = Code::read(code.as_bytes()) else {
        return Err(SearchFault::Memory);
    };
    match Position::read(alloc, text.as_bytes()) {
        Ok(position) => outcome(alloc, &code, &position, budget),
        Err(_) => Err(SearchFault::Memory),
    }
}

/// A code, a position, a budget, and what is found. From a heap of 2 in 0.33 the positions 2, 1 and
/// none can be reached. In 0.3 each move takes 1: heaps of even size are N-positions, and the plays
/// from a heap of n reach n + 1 positions, one after another, and each is needed. The heaps 94 and
/// 416 have hundreds of splits, so that their splits make more positions than the budget allows.
/// Where each digit is 1, a move takes a heap whole, and of n different heaps 2^n positions can be
/// reached, of which a search needs fewer than 1024 to find whether n is odd. In 0.b each move
/// changes whether the sum of the heaps is odd, and the last one takes the last heap, so a position
/// is P where it is odd. No 65,536 positions settle nine heaps of 10^18 in 0.75: each option of them
/// leaves eight, and so has more options than that, each of which would have to be settled as N.
static ROWS: [(&str, &str, u32, Result<Outcome, SearchFault>); 24] = [
    ("0.33", "0", 65536, Ok(Outcome::N)),
    ("0.33", "1", 65536, Ok(Outcome::P)),
    ("0.33", "1 1", 65536, Ok(Outcome::N)),
    ("0.33", "2 2", 65536, Ok(Outcome::P)),
    ("0.33", "1 2 2", 65536, Ok(Outcome::N)),
    ("0.33", "2", 3, Ok(Outcome::N)),
    ("0.33", "2", 0, Err(SearchFault::Budget)),
    ("0.3", "100000", u32::MAX, Ok(Outcome::N)),
    ("0.3", "1000", 500, Err(SearchFault::Budget)),
    ("0.3", "1000", 1000, Err(SearchFault::Budget)),
    ("0.3", "1000", 1001, Ok(Outcome::N)),
    ("0.3", "2000", 1500, Err(SearchFault::Budget)),
    ("0.3", "2000", 2000, Err(SearchFault::Budget)),
    ("0.3", "2000", 2001, Ok(Outcome::N)),
    (
        "0.7777777777777777",
        "94 416",
        65536,
        Err(SearchFault::Budget),
    ),
    (
        "0.1111111111111",
        "1 2 3 4 5 6 7 8 9 10 11 12 13",
        8191,
        Ok(Outcome::P),
    ),
    (
        "0.11111111111111",
        "1 2 3 4 5 6 7 8 9 10 11 12 13 14",
        16383,
        Ok(Outcome::N),
    ),
    ("0.b", "0", 65536, Ok(Outcome::N)),
    ("0.b", "4", 65536, Ok(Outcome::N)),
    ("0.b", "7", 65536, Ok(Outcome::P)),
    ("0.b", "1 1 1", 65536, Ok(Outcome::P)),
    ("0.b", "2 5 6", 65536, Ok(Outcome::P)),
    ("0.b", "3 9", 65536, Ok(Outcome::N)),
    ("0.75", NINE, 65536, Err(SearchFault::Budget)),
];

/// How many rows hold, up to the first that doesn't.
fn count_held(alloc: Global, rows: &[(&str, &str, u32, Result<Outcome, SearchFault>)]) -> usize {
    let mut held = 0usize;
    for (code, text, budget, wanted) in rows {
        if outcome_of(alloc, code, text, *budget) != *wanted {
            return held;
        }
        held = held.saturating_add(1);
    }
    held
}

/// Nine heaps of 10^18.
const NINE: &str =
    "1000000000000000000 1000000000000000000 1000000000000000000 1000000000000000000 \
1000000000000000000 1000000000000000000 1000000000000000000 1000000000000000000 \
1000000000000000000";

/// Whether the outcome is N, or the number of the fault.
fn n_or_fault(answer: Result<Outcome, SearchFault>) -> Result<bool, u8> {
    match answer {
        Ok(outcome) => Ok(outcome == Outcome::N),
        Err(fault) => Err(fault.number()),
    }
}

/// Whether the position is found to be N in 0.33, or the number of the fault.
pub fn is_n<A: SmallAllocator + Copy>(alloc: A, text: &str) -> Result<bool, u8> {
    n_or_fault(outcome_of(alloc, "0.33", text, 65536))
}

/// Whether the large position is found to be N in 0.75, or the number of the fault.
pub fn is_found<A: SmallAllocator + Copy>(alloc: A) -> Result<bool, u8> {
    n_or_fault(outcome_of(alloc, "0.75", NINE, u32::MAX))
}

/// Whether so many heaps of 1 have their outcome: in 0.3 each move takes 1, so a position is P where
/// the sum of its heaps is odd.
fn ones_have(alloc: Global, code: &Code, count: u64) -> bool {
    let mut position = Position::new(alloc);
    for _ in 0..count {
        if position.push(1).is_err() {
            return false;
        }
    }
    match outcome(alloc, code, &position, u32::MAX) {
        Ok(found) => (found == Outcome::P) == (count % 2 == 1),
        Err(_) => false,
    }
}

/// How many heaps of 1 have their outcome, up to 70.
fn count_ones(alloc: Global) -> u64 {
    let Ok(code) = Code::read(b"0.3") else {
        return 0;
    };
    for count in 0..70u64 {
        if !ones_have(alloc, &code, count) {
            return count;
        }
    }
    70
}

/// Whether a thousand heaps of 1 have their outcome.
fn a_thousand_ones_have(alloc: Global) -> bool {
    match Code::read(b"0.3") {
        Ok(code) => ones_have(alloc, &code, 1000),
        Err(_) => false,
    }
}

/// Whether the heaps of 1 to 1,000 have their outcome within two positions: in 0.1 the only move
/// takes the heap of 1, and then there is none.
fn a_thousand_sizes_have(alloc: Global) -> bool {
    let Ok(code) = Code::read(b"0.1") else {
        return false;
    };
    let mut position = Position::new(alloc);
    for heap in 1..1001u64 {
        if position.push(heap).is_err() {
            return false;
        }
    }
    outcome(alloc, &code, &position, 2) == Ok(Outcome::P)
}

#[test]
fn finds_outcomes(rt: HostRuntime) {
    compare(&rt, "ROWS", count_held(rt.alloc(), &ROWS), 24);
}

#[test]
fn memory_suffices_for_many_heaps(rt: HostRuntime) {
    compare(&rt, "heaps of 1", count_ones(rt.alloc()), 70);
    compare(
        &rt,
        "1000 heaps of 1",
        a_thousand_ones_have(rt.alloc()),
        true,
    );
    compare(&rt, "1000 sizes", a_thousand_sizes_have(rt.alloc()), true);
}
