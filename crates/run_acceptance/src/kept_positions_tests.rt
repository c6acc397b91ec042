//! Nim with heaps of 1 and 2 in misère play. Its quotient is ⟨a, b | a² = 1, b³ = b⟩, and its P-portion {a, b²}. The
//! elements 1, a, b, ab, b², ab² are the labels 0 to 5.
use allocation::Memory;
use kept_positions::{
    ClassTurns, KeptPositions, LabelTables, NotFound, tested_families, tested_positions,
};
use std::alloc::Allocator;

/// The products of the labels.
static PRODUCTS: [u32; 36] = [
    0, 1, 2, 3, 4, 5, 1, 0, 3, 2, 5, 4, 2, 3, 4, 5, 2, 3, 3, 2, 5, 4, 3, 2, 4, 5, 2, 3, 4, 5, 5, 4,
    3, 2, 5, 4,
];

/// The labels with a heap of 1 or 2 more.
static NEXT: [u32; 12] = [1, 2, 0, 3, 3, 4, 2, 5, 5, 2, 4, 3];

/// The tables of a claim: beside which labels each of the two heaps is bad.
fn tables<A: Allocator + Copy>(
    alloc: A,
    bad: &[bool],
    weights: &[u64],
) -> Result<LabelTables<A>, Memory> {
    Ok(LabelTables {
        heaps: 2,
        labels: 6,
        classes: 6,
        start: 0,
        images: Vec::from_slice(alloc, &PRODUCTS)?,
        bad: Vec::from_slice(alloc, bad)?,
        next: Vec::from_slice(alloc, &NEXT)?,
        weights: Vec::from_slice(alloc, weights)?,
    })
}

/// What is answered, and how many positions are kept, or how many heaps the named one has.
fn answer<A: Allocator>(found: &Result<KeptPositions<A>, NotFound<A>>) -> (&'static str, usize) {
    match found {
        Ok(k) => ("tested", k.count),
        Err(NotFound::Rule(heaps)) => ("rule", heaps.len()),
        Err(NotFound::Undecided) => ("undecided", 0),
        Err(NotFound::Limit) => ("limit", 0),
        Err(NotFound::Memory(_)) => ("memory", 0),
    }
}

/// The answer for a claim, weights and a limit.
fn answer_of<A: Allocator + Copy>(
    alloc: A,
    bad: &[bool],
    weights: &[u64],
    limit: usize,
) -> Result<(&'static str, usize), Memory> {
    let t = tables(alloc, bad, weights)?;
    Ok(answer(&tested_positions(alloc, &t, limit)))
}

/// Beside b and ab a heap of 1 is bad, beside ab one of 2: of the P-portion {a, b²}.
static RIGHT: [bool; 12] = [
    false, false, false, false, true, false, true, true, false, false, false, false,
];

/// Beside all but 1 and a both are bad: of the wrong P-portion {a}.
static WRONG: [bool; 12] = [
    false, false, false, false, true, true, true, true, true, true, true, true,
];

/// The heaps' weights, a limit, and the answer. Kept are the empty position, 1, 2 and 2 + 2.
static LIMITS: [(&str, [u64; 2], usize, (&str, usize)); 3] = [
    ("ample", [16, 17], 100, ("tested", 4)),
    ("no weight", [0, 0], 100, ("undecided", 0)),
    ("two positions", [16, 17], 2, ("limit", 0)),
];

/// Where the labels go with a heap of 1 or 2 more: each to one label.
static ONTO: [u32; 12] = [1, 0, 3, 2, 5, 4, 2, 3, 4, 5, 2, 3];

/// The answer where a heap is free at a position that has it `cap` times, if the labels go there.
fn answer_with<A: Allocator + Copy>(
    alloc: A,
    bad: &[bool],
    onto: &[u32],
    cap: usize,
) -> Result<(&'static str, usize), Memory> {
    let t = tables(alloc, bad, &[16, 17])?;
    let mut first = Vec::new(alloc);
    for x in 0..13 {
        first.push(x)?;
    }
    let u = ClassTurns {
        first,
        onto: Vec::from_slice(alloc, onto)?,
    };
    Ok(answer(&tested_families(alloc, &t, &u, cap, 100)))
}

/// Whether the claim is the right one, how many times a position has its free heaps, and the answer. From 1 on, kept are the empty position, 1
/// and 2; from 2 on, 2 + 2 as well. Of the wrong portion each position of at least two heaps of 2 is lost.
static CAPS: [(&str, bool, usize, (&str, usize)); 5] = [
    ("none", true, 0, ("tested", 4)),
    ("from 1 on", true, 1, ("tested", 3)),
    ("from 2 on", true, 2, ("tested", 4)),
    ("wrong from 1 on", false, 1, ("undecided", 0)),
    ("wrong from 2 on", false, 2, ("rule", 2)),
];

#[test]
fn positions_stand_for_families(rt: HostRuntime) {
    for (name, right, cap, wanted) in &CAPS {
        let bad = if *right { &RIGHT } else { &WRONG };
        assert_eq!(rt;
            answer_with(rt.alloc(), bad, &ONTO, *cap),
            Ok(*wanted),
            "{name}"
        );
    }
}

#[test]
fn a_family_wants_to_know_where_labels_go(rt: HostRuntime) {
    assert_eq!(rt;
        answer_with(rt.alloc(), &RIGHT, &[], 1),
        Ok(("undecided", 0))
    );
}

#[test]
fn nim_with_two_heaps(rt: HostRuntime) {
    for (name, weights, limit, wanted) in &LIMITS {
        assert_eq!(rt;
            answer_of(rt.alloc(), &RIGHT, weights, *limit),
            Ok(*wanted),
            "{name}"
        );
    }
}

#[test]
fn two_heaps_of_two_are_lost(rt: HostRuntime) {
    assert_eq!(rt;
        answer_of(rt.alloc(), &WRONG, &[16, 17], 100),
        Ok(("rule", 2))
    );
}
