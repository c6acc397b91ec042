//! A search for a position at which the rule fails. Which positions are tried is no matter of promises; that
//! the rule fails at the one that is found is proved.
ghost use Rattle.std.specs.Prelude.{IfOk, IfSome};
ghost use Rattle.misere_theory.specs.Games.{IsHeap, IsPosition};
ghost use Rattle.misere_theory.specs.Labels.{BreaksRule, says_by};
ghost use Rattle.dominance.specs.Triples.{claim_by};
ghost use Rattle.dominance_checker.specs.Ranks.{label_by};

use crate::reached::Reached;
use crate::rule::rule_fails_at;
use allocation::{Memory, SmallAllocator};
use dominance_checker::{Rank, Shape};
use octal_code::Code;
use positions::{LARGEST_HEAP, Position};
use std::alloc::Allocator;

/// The most triples from which the search goes on.
const MOST_REACHED: usize = 32768;

/// How much the looks at options may cost, about one for each option.
const MOST_COST: u64 = 1 << 21;

/// The position, if the rule is seen to fail at it.
#[tactic(auto, using(crate::proofs::Sizes::sizes_are_heaps))]
fn failing<A: SmallAllocator + Copy>(
    alloc: A,
    code: &Code,
    s: Shape,
    ranks: &[Rank],
    position: Position<A>,
) -> Result<Option<Position<A>>, Memory>
    ensures position { IfOk result (λ found. IfSome found (λ X. IsPosition IsHeap X)) }
    ensures fails { IfOk result (λ found. IfSome found
        (λ X. BreaksRule code.now (says_by (claim_by (label_by s ranks.now))) X)) }
{
    if !rule_fails_at(alloc, code, s, ranks, position.heaps())? {
        return Ok(None);
    }
    Ok(Some(position))
}

/// The position of these heaps, those of 0 left out.
fn position_of<A: SmallAllocator + Copy>(alloc: A, heaps: &[u64]) -> Result<Position<A>, Memory> {
    let mut position = Position::new(alloc);
    for heap in heaps {
        if 1 <= *heap && *heap <= LARGEST_HEAP {
            position.push(*heap)?;
        }
    }
    Ok(position)
}

/// About how many options a heap has.
fn cost_of(code: &Code, heap: u64) -> u64 {
    let places = code.last() as u64 + 1;
    let each = if code.leaves_three() {
        heap.saturating_mul(heap)
    } else {
        heap
    };
    places.saturating_mul(each)
}

/// Where the search is: what is reached, and what looks may still cost.
#[derive(Drop)]
struct Search<A: Allocator> {
    reached: Reached<A>,
    left: u64,
}

/// The position of number `n` and a heap more, if the rule is seen to fail there.
fn failing_beside<A: SmallAllocator + Copy>(
    alloc: A,
    code: &Code,
    s: Shape,
    ranks: &[Rank],
    search: &mut Search<A>,
    n: usize,
    heap: u64,
) -> Result<Option<Position<A>>, Memory>
    ensures position { IfOk result (λ found. IfSome found (λ X. IsPosition IsHeap X)) }
    ensures fails { IfOk result (λ found. IfSome found
        (λ X. BreaksRule code.now (says_by (claim_by (label_by s ranks.now))) X)) }
{
    let mut heaps = search.reached.heaps(alloc, n)?;
    heaps.push(heap)?;
    for other in &heaps {
        search.left = search.left.saturating_sub(cost_of(code, *other));
    }
    search.reached.add(s, ranks, n, heap)?;
    let position = position_of(alloc, &heaps)?;
    failing(alloc, code, s, ranks, position)
}

/// The same of number `n` and each heap up to the last.
fn failing_behind<A: SmallAllocator + Copy>(
    alloc: A,
    code: &Code,
    s: Shape,
    ranks: &[Rank],
    search: &mut Search<A>,
    n: usize,
    last: u64,
) -> Result<Option<Position<A>>, Memory>
    ensures position { IfOk result (λ found. IfSome found (λ X. IsPosition IsHeap X)) }
    ensures fails { IfOk result (λ found. IfSome found
        (λ X. BreaksRule code.now (says_by (claim_by (label_by s ranks.now))) X)) }
{
    for heap in 1..last.saturating_add(1) {
        if search.left == 0 {
            break;
        }
        if let Some(position) = failing_beside(alloc, code, s, ranks, search, n, heap)? {
            return Ok(Some(position));
        }
    }
    Ok(None)
}

/// Up to which heap positions are tried: two periods from the start, and what a move takes away.
fn last_heap(code: &Code, s: Shape) -> u64 {
    let twice = s.period.saturating_mul(2);
    s.start
        .saturating_add(twice)
        .saturating_add(code.last() as u64)
}

/// A position at which the rule is seen to fail, if one is found among those of few heaps: first that of none,
/// and then of triples one position each, with a heap more.
///
/// # Errors
/// `Memory` where a growth was refused.
pub fn failing_position<A: SmallAllocator + Copy>(
    alloc: A,
    code: &Code,
    s: Shape,
    ranks: &[Rank],
) -> Result<Option<Position<A>>, Memory>
    ensures position { IfOk result (λ found. IfSome found (λ X. IsPosition IsHeap X)) }
    ensures fails { IfOk result (λ found. IfSome found
        (λ X. BreaksRule code.now (says_by (claim_by (label_by s ranks.now))) X)) }
{
    let mut search = Search {
        reached: Reached::new(alloc)?,
        left: MOST_COST,
    };
    for n in 0..MOST_REACHED {
        if search.reached.len() <= n || search.left == 0 {
            break;
        }
        let last = last_heap(code, s);
        if let Some(position) = failing_behind(alloc, code, s, ranks, &mut search, n, last)? {
            return Ok(Some(position));
        }
    }
    Ok(None)
}
