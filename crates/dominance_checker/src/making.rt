//! The numbers, kinds and kept states with which a claim is tested. Nothing is claimed of them: they are
//! hints, which are tested.
use crate::numbers::Numbers;
use crate::rank::Rank;
use crate::shape::{Shape, rank_of};
use crate::side::{Side, sides_of};
use crate::state::{LOSSES, State, size_of};
use crate::testing::far_of;
use octal_code::Code;
use std::alloc::{AllocError, Allocator};

/// The largest heap that is tested.
const LARGEST_HEAP: u64 = 4096;

/// How many states are kept at most.
const MOST_STATES: usize = 4096;

/// The state of the empty position.
const EMPTY: State = State {
    odd: false,
    size: 0,
    alive: false,
    keeps: [false; 8],
    flips: [false; 8],
};

/// The largest weight of a heap below `end`.
fn largest_weight(s: Shape, ranks: &[Rank], end: u64) -> u64 {
    let mut most: u64 = 0;
    for n in 1..end {
        if let Some(u) = rank_of(s, ranks, n) {
            if most < u.weight {
                most = u.weight;
            }
        }
    }
    most
}

/// How far the claim is tested. `None` if that is too far.
pub(crate) fn numbers_of(code: &Code, s: Shape, ranks: &[Rank]) -> Option<Numbers> {
    if s.rise == 0 || s.start > LARGEST_HEAP || s.period > LARGEST_HEAP {
        return None;
    }
    let digits = code.last() as u64;
    let few = largest_weight(s, ranks, s.start);
    let laps = (far_of(s.rise, few)? / s.rise).checked_add(1)?;
    let large = s.period.checked_mul(laps)?.checked_add(s.start)?;
    if large > LARGEST_HEAP {
        return None;
    }
    let behind = large + 2 * s.start + digits;
    let all = 3 * s.start + 3 * s.period + digits;
    let last = if behind < all { all } else { behind };
    let most = largest_weight(s, ranks, last + s.period)
        .checked_mul(2)?
        .checked_add(7)?;
    Some(Numbers {
        large,
        last,
        digits,
        few,
        most,
    })
}

/// The state with the change of the option, if it is listed and loses little enough.
fn with_side(u: Rank, v: &Side, mut k: State) -> State {
    if !v.listed || v.rank.weight > u.weight || v.rank.lead > u.weight {
        return k;
    }
    let lost = u.weight - v.rank.weight;
    if lost < LOSSES as u64 {
        if v.rank.odd == u.odd {
            k.keeps[lost as usize] = true;
        } else {
            k.flips[lost as usize] = true;
        }
    }
    k
}

/// The state of a heap alone.
fn state_of(u: Rank, sides: &[Side]) -> State {
    let mut k = State {
        odd: u.odd,
        size: size_of(u.weight),
        alive: !sides.is_empty(),
        keeps: [false; 8],
        flips: [false; 8],
    };
    for v in sides {
        k = with_side(u, v, k);
    }
    k
}

/// The state of k and h together.
fn together(k: &State, h: &State) -> State {
    let mut both = State {
        odd: k.odd != h.odd,
        size: size_of(k.size.saturating_add(h.size)),
        alive: k.alive || h.alive,
        keeps: k.keeps,
        flips: k.flips,
    };
    for lost in 0..LOSSES {
        if h.keeps[lost] {
            both.keeps[lost] = true;
        }
        if h.flips[lost] {
            both.flips[lost] = true;
        }
    }
    both
}

/// Whether j says no more than k.
fn is_less(j: &State, k: &State) -> bool {
    if j.odd != k.odd || j.size != k.size || j.alive != k.alive {
        return false;
    }
    for lost in 0..LOSSES {
        if j.keeps[lost] && !k.keeps[lost] || j.flips[lost] && !k.flips[lost] {
            return false;
        }
    }
    true
}

/// Puts the state on the list, if none there says less, and takes off those that say more.
fn keep<A: Allocator>(list: &mut Vec<State, A>, k: State) -> Result<(), AllocError> {
    for j in list.iter() {
        if is_less(j, &k) {
            return Ok(());
        }
    }
    if list.len() < MOST_STATES {
        list.retain(|j| !is_less(&k, j));
        list.push(k)?;
    }
    Ok(())
}

/// The kinds of the heaps below `end`.
pub(crate) fn kinds_of<A: Allocator + Copy>(
    alloc: A,
    code: &Code,
    s: Shape,
    ranks: &[Rank],
    end: u64,
) -> Result<Vec<State, A>, AllocError> {
    let mut kinds = Vec::new(alloc);
    for n in 1..end {
        if let Some(u) = rank_of(s, ranks, n) {
            if let Some(sides) = sides_of(alloc, code, s, ranks, n)? {
                keep(&mut kinds, state_of(u, &sides))?;
            }
        }
    }
    Ok(kinds)
}

/// The least states of positions of these kinds of heaps: rounds, until nothing is new.
pub(crate) fn kept_of<A: Allocator + Copy>(
    alloc: A,
    kinds: &[State],
) -> Result<Vec<State, A>, AllocError> {
    let mut kept = Vec::new(alloc);
    kept.push(EMPTY)?;
    for _ in 0..LARGEST_HEAP {
        let before = kept.clone()?;
        for k in before.iter() {
            for h in kinds {
                keep(&mut kept, together(k, h))?;
            }
        }
        if before.as_slice() == kept.as_slice() {
            break;
        }
    }
    Ok(kept)
}
