//! Claims about four games, of which the first is proved by hand, and claims that one number makes wrong.
use allocation::Memory;
use dominance_checker::{Rank, Shape, is_accepted, is_represented, is_said_p};
use octal_code::Code;
use std::alloc::Allocator;

/// The parity, the weight and the lead of each heap of 0.26 to heap 16.
static GAME_0_26: [(bool, u64, u64); 17] = [
    (false, 0, 0),
    (false, 0, 0),
    (true, 0, 0),
    (false, 1, 0),
    (true, 1, 0),
    (false, 0, 0),
    (true, 0, 0),
    (false, 1, 0),
    (true, 1, 0),
    (false, 2, 1),
    (true, 2, 1),
    (false, 3, 2),
    (true, 3, 0),
    (false, 4, 3),
    (true, 4, 1),
    (false, 5, 4),
    (true, 5, 2),
];

/// The same of 0.734, to heap 7.
static GAME_0_734: [(bool, u64, u64); 8] = [
    (false, 0, 0),
    (true, 0, 0),
    (false, 1, 0),
    (true, 1, 0),
    (false, 2, 0),
    (true, 2, 1),
    (false, 3, 0),
    (true, 3, 2),
];

/// The same of 0.355, to heap 14.
static GAME_0_355: [(bool, u64, u64); 15] = [
    (false, 0, 0),
    (true, 0, 0),
    (true, 1, 0),
    (true, 0, 0),
    (true, 1, 0),
    (true, 0, 0),
    (true, 1, 0),
    (true, 2, 1),
    (true, 3, 0),
    (true, 4, 1),
    (true, 5, 0),
    (true, 6, 1),
    (true, 7, 0),
    (true, 8, 1),
    (true, 9, 2),
];

/// The ranks with these numbers, with `more` put on the weight of one heap.
fn ranks_of<A: Allocator>(
    alloc: A,
    numbers: &[(bool, u64, u64)],
    heap: usize,
    more: u64,
) -> Result<Vec<Rank, A>, Memory> {
    let mut ranks = Vec::new(alloc);
    for (i, n) in numbers.iter().enumerate() {
        let weight = if i == heap {
            n.1.saturating_add(more)
        } else {
            n.1
        };
        ranks.push(Rank {
            odd: n.0,
            weight,
            lead: n.2,
        })?;
    }
    Ok(ranks)
}

/// Whether the claim is accepted, with `more` put on the weight of one heap.
fn accepts<A: Allocator + Copy>(
    alloc: A,
    text: &[u8],
    s: Shape,
    numbers: &[(bool, u64, u64)],
    heap: usize,
    more: u64,
) -> Result<bool, Memory> {
    let Ok(code) = Code::read(text) else {
        return Ok(false);
    };
    let ranks = ranks_of(alloc, numbers, heap, more)?;
    is_accepted(alloc, &code, s, &ranks)
}

/// From heap 13 on the numbers of 0.26 repeat.
const SHAPE_0_26: Shape = Shape {
    start: 13,
    period: 4,
    rise: 2,
};

/// The claim about 0.26 with a heap's weight changed.
fn accepts_0_26<A: Allocator + Copy>(alloc: A, heap: usize, more: u64) -> Result<bool, Memory> {
    accepts(alloc, b"0.26", SHAPE_0_26, &GAME_0_26, heap, more)
}

/// Whether the triples are the quotient of 0.26.
fn represents_0_26<A: Allocator + Copy>(alloc: A) -> Result<bool, Memory> {
    let Ok(code) = Code::read(b"0.26") else {
        return Ok(false);
    };
    let ranks = ranks_of(alloc, &GAME_0_26, 0, 0)?;
    is_represented(alloc, &code, SHAPE_0_26, &ranks)
}

/// Whether the claim about 0.26 says that the position is P.
fn says_p<A: Allocator + Copy>(alloc: A, heaps: &[u64]) -> Result<Option<bool>, Memory> {
    let ranks = ranks_of(alloc, &GAME_0_26, 0, 0)?;
    Ok(is_said_p(SHAPE_0_26, &ranks, heaps))
}

#[test]
fn accepts_what_is_proved_by_hand(rt: HostRuntime) {
    assert!(rt; accepts_0_26(rt.alloc(), 0, 0) == Ok(true));
}

#[test]
fn finds_the_quotient_that_is_proved_by_hand(rt: HostRuntime) {
    assert!(rt; represents_0_26(rt.alloc()) == Ok(true));
}

/// Heap 2 alone; two heaps 3, of the nim sum 0; two heaps 9, of which none rules; heap 13, which rules two
/// heaps 3, with nim sum 0; and with heap 3 the nim sum is 2.
#[test]
fn says_p_as_by_hand(rt: HostRuntime) {
    assert!(rt; says_p(rt.alloc(), &[2]) == Ok(Some(true)));
    assert!(rt; says_p(rt.alloc(), &[3, 3]) == Ok(Some(true)));
    assert!(rt; says_p(rt.alloc(), &[9, 9]) == Ok(Some(true)));
    assert!(rt; says_p(rt.alloc(), &[13, 3, 3]) == Ok(Some(false)));
    assert!(rt; says_p(rt.alloc(), &[13, 3]) == Ok(Some(true)));
}

#[test]
fn accepts_other_games(rt: HostRuntime) {
    let first = Shape {
        start: 4,
        period: 4,
        rise: 2,
    };
    assert!(rt; accepts(rt.alloc(), b"0.734", first, &GAME_0_734, 0, 0) == Ok(true));
    let second = Shape {
        start: 13,
        period: 2,
        rise: 2,
    };
    assert!(rt; accepts(rt.alloc(), b"0.355", second, &GAME_0_355, 0, 0) == Ok(true));
}

#[test]
fn refuses_changed_weights(rt: HostRuntime) {
    assert!(rt; accepts_0_26(rt.alloc(), 3, 1) == Ok(false));
    assert!(rt; accepts_0_26(rt.alloc(), 9, 2) == Ok(false));
    assert!(rt; accepts_0_26(rt.alloc(), 14, 2) == Ok(false));
    assert!(rt; accepts_0_26(rt.alloc(), 16, 2) == Ok(false));
}
