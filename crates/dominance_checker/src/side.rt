//! The options of a heap, by their ranks.
ghost use Rattle.std.specs.Prelude.{◌≡◌, IfSome, IfOk, IsTrue};
ghost use Rattle.dominance.specs.Triples.{times, triple_of};
ghost use Rattle.dominance.specs.Finite.{is_listed};
ghost use Rattle.heap_options.specs.Exact.{heaps_of};
ghost use Rattle.dominance_checker.specs.Ranks.{triple_in, label_by};
ghost use Rattle.dominance_checker.specs.Sides.{side_by, sides_by};

use crate::rank::{NOTHING, Rank, beside};
use crate::shape::{Shape, rank_of};
use heap_options::{Left, options};
use octal_code::Code;
use std::alloc::{AllocError, Allocator};

/// What is left of a heap: its rank, and whether at most one of its heaps is from `start` on.
#[derive(Clone, Copy, Debug, PartialEq, Eq)]
pub struct Side {
    pub rank: Rank,
    pub listed: bool,
}

/// The rank of a heap beside another rank. `None` if numbers grow too large.
fn heap_beside(s: Shape, ranks: &[Rank], n: u64, v: Rank) -> Option<Rank>
    ensures { IfSome result (λ w. triple_in w ≡ times (label_by s ranks.now n) (triple_in v)) }
{
    beside(rank_of(s, ranks, n)?, v)
}

/// The rank of what is left. `None` if numbers grow too large.
fn rank_left(s: Shape, ranks: &[Rank], left: Left) -> Option<Rank>
    ensures { IfSome result (λ w. triple_in w ≡ triple_of (label_by s ranks.now) (heaps_of left)) }
{
    match left {
        Left::Nothing => Some(NOTHING),
        Left::One(a) => heap_beside(s, ranks, a, NOTHING),
        Left::Two(a, b) => heap_beside(s, ranks, a, heap_beside(s, ranks, b, NOTHING)?),
        Left::Three(a, b, c) => {
            let last = heap_beside(s, ranks, c, NOTHING)?;
            heap_beside(s, ranks, a, heap_beside(s, ranks, b, last)?)
        }
    }
}

/// Whether at most one of the heaps is from `start` on.
fn is_listed(start: u64, left: Left) -> bool
    ensures { result ≡ is_listed start (heaps_of left) }
{
    match left {
        Left::Nothing => true,
        Left::One(_) => true,
        Left::Two(a, b) => a < start || b < start,
        Left::Three(a, b, c) => {
            if a < start {
                b < start || c < start
            } else {
                b < start && c < start
            }
        }
    }
}

/// What is left of a heap. `None` if numbers grow too large.
fn side_of(s: Shape, ranks: &[Rank], left: Left) -> Option<Side>
    ensures { IfSome result (λ v. v ≡ side_by s ranks.now left) }
{
    let rank = rank_left(s, ranks, left)?;
    Some(Side {
        rank,
        listed: is_listed(s.start, left),
    })
}

/// The options of the heap n, in their order. `None` if numbers grow too large.
pub(crate) fn sides_of<A: Allocator>(
    alloc: A,
    code: &Code,
    s: Shape,
    ranks: &[Rank],
    n: u64,
) -> Result<Option<Vec<Side, A>>, AllocError>
    ensures { IfOk result
        (λ found. IfSome found (λ v. v.items ≡ sides_by code.now s ranks.now n)) }
{
    let mut sides = Vec::new(alloc);
    for left in options(code, n) {
        let Some(side) = side_of(s, ranks, left) else {
            return Ok(None);
        };
        sides.push(side)?;
    }
    Ok(Some(sides))
}
