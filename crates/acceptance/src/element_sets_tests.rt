//! Sets at the edges of their lanes.
use crate::comparing::compare;
use element_sets::{ElementSet, LaneSet, MOST_ELEMENTS, members_are_small};
use std::alloc::{AllocError, Global};

/// The largest element.
const LAST: u16 = MOST_ELEMENTS - 1;

fn lane_set<const LANES: usize>(members: &[u16]) -> LaneSet<LANES> {
    let mut all = LaneSet::new();
    for x in members {
        all.insert(*x);
    }
    all
}

fn set_of(members: &[u16]) -> ElementSet {
    lane_set(members)
}

/// What holds of sets at the edges of lanes.
fn edges_hold() -> [bool; 8] {
    let none = ElementSet::new();
    let edges = set_of(&[0, 63, 64, LAST]);
    let high = set_of(&[64, LAST]);
    let low = set_of(&[0, 63]);
    let last = set_of(&[LAST]);
    let mut grown = low;
    grown.union_with(&high);
    [
        edges.meets(&last),
        !set_of(&[0, LAST]).subset(&set_of(&[0, 63, 64])),
        !none.meets(&none) && none.subset(&none) && none.is_empty(),
        edges.contains(63),
        !edges.contains(62),
        edges == low.union(&set_of(&[LAST, 64])),
        grown == edges,
        !grown.is_empty(),
    ]
}

/// What holds of numbers out of the range, which stay out, and of the last two in it.
fn range_holds() -> [bool; 5] {
    let edges = set_of(&[0, 63, 64, LAST]);
    let mut more = edges;
    let mut out = true;
    for x in [MOST_ELEMENTS, MOST_ELEMENTS + 63, 32768, u16::MAX] {
        out &= !more.contains(x) && !more.insert(x);
    }
    [
        out,
        more == edges,
        more.insert(LAST),
        more.insert(LAST - 1),
        more.contains(LAST - 1),
    ]
}

/// Whether the translation from the other end is right.
fn translates_from_the_other_end(alloc: Global) -> Result<bool, AllocError> {
    let mut row = Vec::new(alloc);
    for x in 0..MOST_ELEMENTS {
        row.push(LAST - x)?;
    }
    let edges = set_of(&[0, 63, 64, LAST]);
    members_are_small(&edges);
    let moved = edges.translate(&row);
    Ok(moved == set_of(&[0, LAST - 64, LAST - 63, LAST]))
}

/// What holds of sets in four lanes, and of their translation by a row of 256 entries.
fn four_lanes_hold(alloc: Global) -> Result<bool, AllocError> {
    let mut row = Vec::new(alloc);
    for x in 0..256u16 {
        row.push(255 - x)?;
    }
    let edges: LaneSet<4> = lane_set(&[0, 63, 64, 255]);
    members_are_small(&edges);
    Ok(
        edges.meets(&lane_set(&[255]))
            && lane_set::<4>(&[0, 255]).subset(&edges)
            && !edges.contains(256)
            && edges.translate(&row) == lane_set(&[0, 191, 192, 255]),
    )
}

/// What holds of sets in sixteen lanes and in sixty-four, at the edges of the lanes and of the range.
fn wide_sets_hold() -> [bool; 6] {
    let sixteen: LaneSet<16> = lane_set(&[0, 511, 512, 1023]);
    let mut all: LaneSet<64> = lane_set(&[0, 1023, 1024, 4095]);
    [
        sixteen.meets(&lane_set(&[1023])) && !sixteen.meets(&lane_set(&[1022])),
        lane_set::<16>(&[512]).subset(&sixteen) && !sixteen.contains(1024),
        all.meets(&lane_set(&[4095])) && !all.meets(&lane_set(&[4094])),
        all.contains(1024) && !all.contains(4096) && !all.contains(u16::MAX),
        !all.insert(4096) && all == lane_set(&[4095, 1024, 1023, 0]),
        lane_set::<64>(&[1023, 4095]).union(&lane_set(&[0, 1024])) == all,
    ]
}

/// Whether the translation of sets in sixty-four lanes from the other end is right.
fn the_widest_translates(alloc: Global) -> Result<bool, AllocError> {
    let mut row = Vec::new(alloc);
    for x in 0..4096u16 {
        row.push(4095 - x)?;
    }
    let edges: LaneSet<64> = lane_set(&[0, 63, 64, 4095]);
    members_are_small(&edges);
    Ok(edges.translate(&row) == lane_set(&[0, 4031, 4032, 4095]))
}

/// How many bytes sets of 1, 4, 16 and 64 lanes have.
fn sizes() -> [usize; 4] {
    [
        size_of::<LaneSet<1>>(),
        size_of::<LaneSet<4>>(),
        size_of::<LaneSet<16>>(),
        size_of::<LaneSet<64>>(),
    ]
}

/// A set is a bit for each of 512 elements, or of as many as its lanes have.
#[test]
fn sets(rt: HostRuntime) {
    compare(
        &rt,
        "elements and bytes",
        (MOST_ELEMENTS, size_of::<ElementSet>()),
        (512, 64),
    );
    compare(&rt, "bytes of lanes", sizes(), [8, 32, 128, 512]);
    compare(
        &rt,
        "a set meets",
        set_of(&[0, 255, 511]).meets(&set_of(&[511])),
        true,
    );
    compare(&rt, "edges", edges_hold(), [true; 8]);
    compare(&rt, "ranges", range_holds(), [true; 5]);
    compare(&rt, "wide sets", wide_sets_hold(), [true; 6]);
    let translated = [
        matches!(translates_from_the_other_end(rt.alloc()), Ok(true)),
        matches!(four_lanes_hold(rt.alloc()), Ok(true)),
        matches!(the_widest_translates(rt.alloc()), Ok(true)),
    ];
    compare(
        &rt,
        "translations of 8, 4 and 64 lanes",
        translated,
        [true; 3],
    );
}
