//! The test of positions that are found.
ghost use Rattle.std.specs.Prelude.{◌≡◌, ◌⊎◌, ◌<◌, ◌≤◌, ◌+◌, ℕ, IsTrue, slice_index};
ghost use Rattle.kept_positions.specs.Numbers.{entry, IsShifted, HasEntriesOf, IsMadeOf, IsEmptyFound, IsFree, IsClosedWith, AreFamiliesTested};

use crate::covers::{is_onward, label_with, weight_with};
use crate::entries::is_good_with;
use crate::families::are_families;
use crate::listed::Listed;
use crate::reads::{bounds, is_free, is_not_free, number, number_at, weight};
use crate::tables::{ClassTurns, KeptPositions, LabelTables};
use std::alloc::Allocator;

/// Whether position 0 is seen to be the empty one.
fn is_empty_found<A: Allocator>(k: &KeptPositions<A>) -> bool
    ensures { IsTrue result → IsEmptyFound k.now }
{
    let Some((from, to)) = bounds(&k.first, 0) else {
        return false;
    };
    0 < k.count && number(&k.labels, 0) == Some(0) && weight(&k.weights, 0) == Some(0) && to <= from
}

/// Whether entry `p` is entry `o` with heap `g` more.
fn is_entry_with<A: Allocator>(
    t: &LabelTables<A>,
    k: &KeptPositions<A>,
    p: usize,
    o: usize,
    g: usize,
) -> bool
    ensures { IsTrue result → (slice_index k.now.heaps p ≡ slice_index k.now.heaps o)
        × (slice_index k.now.others p ≡ entry t.now.next t.now.heaps (slice_index k.now.others o) g)
        × (slice_index k.now.others p < t.now.labels) }
{
    let Some(own) = number(&k.heaps, p) else {
        return false;
    };
    let Some(heap) = number(&k.heaps, o) else {
        return false;
    };
    let Some(others) = number(&k.others, p) else {
        return false;
    };
    let Some(before) = number(&k.others, o) else {
        return false;
    };
    let Some(next) = number_at(&t.next, t.heaps, before, g) else {
        return false;
    };
    own == heap && others == next && others < t.labels
}

/// Whether entry `m` after number `from` is entry `m` from number `start` on, with heap `g` more.
fn is_shifted<A: Allocator>(
    t: &LabelTables<A>,
    k: &KeptPositions<A>,
    from: usize,
    start: usize,
    m: usize,
    g: usize,
) -> bool
    ensures { IsTrue result → IsShifted t.now k.now from start g m }
{
    let Some(after) = from.checked_add(1) else {
        return false;
    };
    let Some(p) = after.checked_add(m) else {
        return false;
    };
    let Some(o) = start.checked_add(m) else {
        return false;
    };
    is_entry_with(t, k, p, o, g)
}

/// The same of so many entries.
fn are_shifted<A: Allocator>(
    t: &LabelTables<A>,
    k: &KeptPositions<A>,
    from: usize,
    start: usize,
    length: usize,
    g: usize,
) -> bool
    ensures { IsTrue result → (m : ℕ) → m < length → IsShifted t.now k.now from start g m }
{
    for m in 0..length {
        if !is_shifted(t, k, from, start, m, g) {
            return false;
        }
    }
    true
}

/// Whether the entries of position `j` are those of position `i` with heap `g` more, and this heap's.
fn has_entries_of<A: Allocator>(
    t: &LabelTables<A>,
    k: &KeptPositions<A>,
    j: usize,
    i: usize,
    g: usize,
) -> bool
    ensures { IsTrue result → HasEntriesOf t.now k.now j i g }
{
    let Some((from, to)) = bounds(&k.first, j) else {
        return false;
    };
    let Some((start, end)) = bounds(&k.first, i) else {
        return false;
    };
    let Some(others) = number(&k.others, from) else {
        return false;
    };
    let Some(label) = number(&k.labels, i) else {
        return false;
    };
    start <= end
        && from < to
        && to - from - 1 == end - start
        && others == label
        && are_shifted(t, k, from, start, end - start, g)
}

/// Whether position `j` is position `i` with heap `g` more.
fn is_made_of<A: Allocator>(
    t: &LabelTables<A>,
    k: &KeptPositions<A>,
    j: usize,
    i: usize,
    g: usize,
) -> bool
    ensures { IsTrue result → slice_index k.now.heaps (slice_index k.now.first j) ≡ g
        → IsMadeOf t.now k.now j i g }
{
    let Some(own) = number(&k.labels, j) else {
        return false;
    };
    let Some(label) = label_with(t, k, i, g) else {
        return false;
    };
    let Some(own_weight) = weight(&k.weights, j) else {
        return false;
    };
    let Some(sum) = weight_with(t, k, i, g) else {
        return false;
    };
    i < j
        && g < t.heaps
        && own == label
        && own < t.labels
        && own_weight == sum
        && has_entries_of(t, k, j, i, g)
}

/// Whether position `j` is another one with one heap more.
fn is_made<A: Allocator>(t: &LabelTables<A>, k: &KeptPositions<A>, j: usize) -> bool
    ensures { IsTrue result → (i : ℕ) × (g : ℕ) × IsMadeOf t.now k.now j i g }
{
    let Some(i) = number(&k.parents, j) else {
        return false;
    };
    let Some(from) = number(&k.first, j) else {
        return false;
    };
    let Some(g) = number(&k.heaps, from) else {
        return false;
    };
    is_made_of(t, k, j, i, g)
}

/// Whether each position but the first is.
fn are_made<A: Allocator>(t: &LabelTables<A>, k: &KeptPositions<A>) -> bool
    ensures { IsTrue result → (j : ℕ) → 1 ≤ j → j < k.now.count
        → (i : ℕ) × (g : ℕ) × IsMadeOf t.now k.now j i g }
{
    for j in 1..k.count {
        if !is_made(t, k, j) {
            return false;
        }
    }
    true
}

/// Whether position `i` with heap `g` more has a label, isn't bad beside nothing, and comes to a position or is
/// covered.
fn is_closed_with<A: Allocator>(
    t: &LabelTables<A>,
    k: &KeptPositions<A>,
    c: &Listed<A>,
    i: usize,
    g: usize,
) -> bool
    ensures { IsTrue result → IsClosedWith t.now k.now i g }
{
    let Some(label) = label_with(t, k, i, g) else {
        return false;
    };
    label < t.labels && is_good_with(t, k, i, g, t.start) && is_onward(t, k, c.of(label), i, g)
}

/// The same, unless the heap is free at position `i`.
fn is_free_or_closed<A: Allocator>(
    t: &LabelTables<A>,
    k: &KeptPositions<A>,
    c: &Listed<A>,
    i: usize,
    g: usize,
) -> bool
    ensures { IsTrue result → IsFree t.now k.now i g ⊎ IsClosedWith t.now k.now i g }
{
    if is_free(t, k, i, g) == Some(true) {
        return true;
    }
    is_closed_with(t, k, c, i, g)
}

/// The same with each heap.
fn is_closed<A: Allocator>(
    t: &LabelTables<A>,
    k: &KeptPositions<A>,
    c: &Listed<A>,
    i: usize,
) -> bool
    ensures { IsTrue result → (g : ℕ) → g < t.now.heaps
        → IsFree t.now k.now i g ⊎ IsClosedWith t.now k.now i g }
{
    for g in 0..t.heaps {
        if !is_free_or_closed(t, k, c, i, g) {
            return false;
        }
    }
    true
}

/// The same of each position.
fn are_closed<A: Allocator>(t: &LabelTables<A>, k: &KeptPositions<A>, c: &Listed<A>) -> bool
    ensures { IsTrue result → (i g : ℕ) → i < k.now.count → g < t.now.heaps
        → IsFree t.now k.now i g ⊎ IsClosedWith t.now k.now i g }
{
    for i in 0..k.count {
        if !is_closed(t, k, c, i) {
            return false;
        }
    }
    true
}

/// Whether no heap is free at the empty position.
fn is_none_free<A: Allocator>(t: &LabelTables<A>, k: &KeptPositions<A>) -> bool
    ensures { IsTrue result → (g : ℕ) → g < t.now.heaps → IsFree t.now k.now 0 g → ⊥ }
{
    for g in 0..t.heaps {
        if !is_not_free(t, k, 0, g) {
            return false;
        }
    }
    true
}

/// Whether the positions pass all tests. By their labels they are listed, so that covers are found fast; and there is
/// room for a mark for each class.
pub(crate) fn are_tested<A: Allocator>(
    t: &LabelTables<A>,
    u: &ClassTurns<A>,
    k: &KeptPositions<A>,
    c: &Listed<A>,
    marks: &mut [bool],
) -> bool
    ensures { IsTrue result → AreFamiliesTested t.now u.now k.now }
{
    if !is_empty_found(k) || t.labels == 0 {
        return false;
    }
    if !is_none_free(t, k) {
        return false;
    }
    if !are_made(t, k) {
        return false;
    }
    if !are_families(t, u, k, marks) {
        return false;
    }
    are_closed(t, k, c)
}
