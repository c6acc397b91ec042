//! Whether positions are bad beside classes.
ghost use Rattle.std.specs.Prelude.{◌≡◌, ◌<◌, ◌≤◌, ℕ, IsTrue, true, false, slice_index};
ghost use Rattle.kept_positions.specs.Numbers.{entry, is_bad, IsEntryOf, IsBadAt, IsBadWith};

use crate::reads::{bounds, is_bad, number, number_at};
use crate::tables::{KeptPositions, LabelTables};
use std::alloc::Allocator;

/// Whether entry `o` is seen to be bad beside class `x`.
fn is_bad_entry<A: Allocator>(t: &LabelTables<A>, k: &KeptPositions<A>, o: usize, x: usize) -> bool
    ensures { IsTrue result
        → is_bad t.now x (slice_index k.now.others o) (slice_index k.now.heaps o) ≡ true }
{
    let Some(w) = number(&k.others, o) else {
        return false;
    };
    let Some(g) = number(&k.heaps, o) else {
        return false;
    };
    is_bad(t, x, w, g) == Some(true)
}

/// Whether each of these entries is.
fn are_bad_entries<A: Allocator>(
    t: &LabelTables<A>,
    k: &KeptPositions<A>,
    from: usize,
    to: usize,
    x: usize,
) -> bool
    ensures { IsTrue result → (o : ℕ) → from ≤ o → o < to
        → is_bad t.now x (slice_index k.now.others o) (slice_index k.now.heaps o) ≡ true }
{
    for o in from..to {
        if !is_bad_entry(t, k, o, x) {
            return false;
        }
    }
    true
}

/// Whether position `i` is seen to be bad beside class `x`.
pub(crate) fn is_bad_at<A: Allocator>(
    t: &LabelTables<A>,
    k: &KeptPositions<A>,
    i: usize,
    x: usize,
) -> bool
    ensures { IsTrue result → IsBadAt t.now k.now i x }
{
    match bounds(&k.first, i) {
        Some((from, to)) => are_bad_entries(t, k, from, to, x),
        None => false,
    }
}

/// Whether entry `o` is seen not to be bad beside class `x`.
fn is_good_at_entry<A: Allocator>(
    t: &LabelTables<A>,
    k: &KeptPositions<A>,
    o: usize,
    x: usize,
) -> bool
    ensures { IsTrue result
        → is_bad t.now x (slice_index k.now.others o) (slice_index k.now.heaps o) ≡ false }
{
    let Some(w) = number(&k.others, o) else {
        return false;
    };
    let Some(g) = number(&k.heaps, o) else {
        return false;
    };
    is_bad(t, x, w, g) == Some(false)
}

/// Whether position `i` is seen not to be bad beside class `x`.
pub(crate) fn is_good_at<A: Allocator>(
    t: &LabelTables<A>,
    k: &KeptPositions<A>,
    i: usize,
    x: usize,
) -> bool
    ensures { IsTrue result → IsBadAt t.now k.now i x → ⊥ }
{
    let Some((from, to)) = bounds(&k.first, i) else {
        return false;
    };
    for o in from..to {
        if is_good_at_entry(t, k, o, x) {
            return true;
        }
    }
    false
}

/// Whether entry `o` with heap `g` more is seen not to be bad beside class `x`.
fn is_good_entry<A: Allocator>(
    t: &LabelTables<A>,
    k: &KeptPositions<A>,
    o: usize,
    g: usize,
    x: usize,
) -> bool
    ensures { IsTrue result → (entry t.now.next t.now.heaps (slice_index k.now.others o) g < t.now.labels)
        × (is_bad t.now x (entry t.now.next t.now.heaps (slice_index k.now.others o) g)
        (slice_index k.now.heaps o) ≡ false) }
{
    let Some(w) = number(&k.others, o) else {
        return false;
    };
    let Some(next) = number_at(&t.next, t.heaps, w, g) else {
        return false;
    };
    let Some(h) = number(&k.heaps, o) else {
        return false;
    };
    next < t.labels && is_bad(t, x, next, h) == Some(false)
}

/// Whether some entry of position `i` with heap `g` more is.
fn has_good_entry<A: Allocator>(
    t: &LabelTables<A>,
    k: &KeptPositions<A>,
    i: usize,
    g: usize,
    x: usize,
) -> bool
    ensures { IsTrue result → IsBadWith t.now k.now i g x → ⊥ }
{
    let Some((from, to)) = bounds(&k.first, i) else {
        return false;
    };
    for o in from..to {
        if is_good_entry(t, k, o, g, x) {
            return true;
        }
    }
    false
}

/// Whether position `i` with heap `g` more is seen not to be bad beside class `x`.
pub(crate) fn is_good_with<A: Allocator>(
    t: &LabelTables<A>,
    k: &KeptPositions<A>,
    i: usize,
    g: usize,
    x: usize,
) -> bool
    ensures { IsTrue result → IsBadWith t.now k.now i g x → ⊥ }
{
    let Some(w) = number(&k.labels, i) else {
        return false;
    };
    is_bad(t, x, w, g) == Some(false) || has_good_entry(t, k, i, g, x)
}
