//! What is tested of each heap.
ghost use Rattle.std.specs.Prelude.{◌≡◌, ◌≢◌, ◌<◌, ◌≤◌, ◌+◌, ◌*◌, ◌^◌, ◌⊎◌, ℕ, true, IsTrue, IfOk, All};
ghost use Rattle.dominance_checker.specs.Passed.{IsSideApart, HasKind, IsPassed, IsHeapPassed};

use crate::heap::is_state;
use crate::numbers::Numbers;
use crate::rank::{Rank, are_apart};
use crate::settling::are_settled_below;
use crate::shape::{Shape, rank_of};
use crate::side::{Side, sides_of};
use crate::state::State;
use octal_code::Code;
use std::alloc::{AllocError, Allocator};

/// Whether an option is apart from the heap, differs in parity where it isn't listed, and has a lead of at
/// most this.
fn is_side_apart(u: Rank, most: u64, v: Side) -> bool
    ensures { IsTrue result → IsSideApart u most v }
{
    are_apart(u, v.rank) && (v.listed || u.odd != v.rank.odd) && v.rank.lead <= most
}

/// Whether each option is.
fn are_sides_apart(u: Rank, most: u64, sides: &[Side]) -> bool
    ensures { IsTrue result → All (IsSideApart u most) sides.now }
{
    for v in sides {
        if !is_side_apart(u, most, *v) {
            return false;
        }
    }
    true
}

/// Whether some kind of the list is the state of the heap.
fn has_kind(u: Rank, sides: &[Side], kinds: &[State]) -> bool
    ensures { IsTrue result → HasKind u sides.now kinds.now }
{
    for k in kinds {
        if is_state(u, sides, k) {
            return true;
        }
    }
    false
}

/// Whether all is well with a heap of this rank and these options.
fn is_passed(kinds: &[State], kept: &[State], most: u64, u: Rank, sides: &[Side]) -> bool
    requires { most < 2 ^ 62 }
    ensures { IsTrue result → IsPassed kinds.now kept.now most u sides.now }
{
    let Some(twice) = u.weight.checked_mul(2) else {
        return false;
    };
    let Some(low) = twice.checked_add(7) else {
        return false;
    };
    low <= most
        && are_sides_apart(u, most, sides)
        && has_kind(u, sides, kinds)
        && are_settled_below(u, sides, kept, most + 3)
}

/// Whether all is well with the heap n.
fn is_heap_passed<A: Allocator>(
    alloc: A,
    code: &Code,
    s: Shape,
    ranks: &[Rank],
    kinds: &[State],
    kept: &[State],
    e: Numbers,
    n: u64,
) -> Result<bool, AllocError>
    requires { e.most < 2 ^ 62 }
    ensures { IfOk result
        (λ b. IsTrue b → IsHeapPassed code.now s ranks.now kinds.now kept.now e n) }
{
    let Some(u) = rank_of(s, ranks, n) else {
        return Ok(false);
    };
    let Some(sides) = sides_of(alloc, code, s, ranks, n)? else {
        return Ok(false);
    };
    if e.last <= n && sides.is_empty() {
        return Ok(false);
    }
    Ok(is_passed(kinds, kept, e.most, u, &sides))
}

/// Whether all is well with each heap below `end`.
pub(crate) fn are_heaps_passed<A: Allocator + Copy>(
    alloc: A,
    code: &Code,
    s: Shape,
    ranks: &[Rank],
    kinds: &[State],
    kept: &[State],
    e: Numbers,
    end: u64,
) -> Result<bool, AllocError>
    requires { e.most < 2 ^ 62 }
    ensures { IfOk result
        (λ b. IsTrue b → (n : ℕ) → 1 ≤ n → n < end
        → IsHeapPassed code.now s ranks.now kinds.now kept.now e n) }
{
    for n in 1..end {
        if !is_heap_passed(alloc, code, s, ranks, kinds, kept, e, n)? {
            return Ok(false);
        }
    }
    Ok(true)
}
