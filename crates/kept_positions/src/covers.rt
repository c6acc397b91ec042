//! Whether one heap more leads to a position that is found, or is covered.
ghost use Rattle.std.specs.Prelude.{◌≡◌, ◌<◌, ◌≤◌, ◌⊎◌, ℕ, IsTrue, IfSome, slice_index};
ghost use Rattle.kept_positions.specs.Numbers.{IsFree, IsBadAt, IsBadWith, IsCoveredAt, Comes, IsClosedWith, label_with, weight_with};
ghost use Rattle.kept_positions.specs.Numbers.IsCoveredAt.{Empty, By};

use crate::entries::{is_bad_at, is_good_with};
use crate::reads::{is_free, is_not_free, number, number_at, weight};
use crate::tables::{KeptPositions, LabelTables};
use std::alloc::Allocator;

/// The label of position `i` with heap `g` more.
pub(crate) fn label_with<A: Allocator>(
    t: &LabelTables<A>,
    k: &KeptPositions<A>,
    i: usize,
    g: usize,
) -> Option<usize>
    ensures { IfSome result (λ v. v ≡ label_with t.now k.now i g) }
{
    let w = number(&k.labels, i)?;
    number_at(&t.next, t.heaps, w, g)
}

/// The weight of position `i` with heap `g` more.
pub(crate) fn weight_with<A: Allocator>(
    t: &LabelTables<A>,
    k: &KeptPositions<A>,
    i: usize,
    g: usize,
) -> Option<u64>
    ensures { IfSome result (λ v. v ≡ weight_with t.now k.now i g) }
{
    let added = weight(&t.weights, g)?;
    added.checked_add(weight(&k.weights, i)?)
}

/// Whether position `j` is bad beside class `x`, has this label, and is lighter than that.
fn is_cover<A: Allocator>(
    t: &LabelTables<A>,
    k: &KeptPositions<A>,
    j: usize,
    label: usize,
    most: u64,
    x: usize,
) -> bool
    ensures { IsTrue result → (0 < j) × (j < k.now.count) × (slice_index k.now.labels j ≡ label)
        × (slice_index k.now.weights j < most) × IsBadAt t.now k.now j x }
{
    let Some(own) = number(&k.labels, j) else {
        return false;
    };
    let Some(less) = weight(&k.weights, j) else {
        return false;
    };
    0 < j && j < k.count && own == label && less < most && is_bad_at(t, k, j, x)
}

/// Whether some position of the list is.
fn has_cover<A: Allocator>(
    t: &LabelTables<A>,
    k: &KeptPositions<A>,
    list: &[u32],
    label: usize,
    most: u64,
    x: usize,
) -> bool
    ensures { IsTrue result → (j : ℕ) × (0 < j) × (j < k.now.count)
        × (slice_index k.now.labels j ≡ label) × (slice_index k.now.weights j < most)
        × IsBadAt t.now k.now j x }
{
    for j in list {
        if is_cover(t, k, *j as usize, label, most, x) {
            return true;
        }
    }
    false
}

/// Whether position `i` with heap `g` more isn't bad beside class `x`, or is covered there.
fn is_covered_at<A: Allocator>(
    t: &LabelTables<A>,
    k: &KeptPositions<A>,
    list: &[u32],
    i: usize,
    g: usize,
    x: usize,
) -> bool
    ensures { IsTrue result → IsBadWith t.now k.now i g x → IsCoveredAt t.now k.now i g x }
{
    if is_good_with(t, k, i, g, x) {
        return true;
    }
    let Some(label) = label_with(t, k, i, g) else {
        return false;
    };
    let Some(sum) = weight_with(t, k, i, g) else {
        return false;
    };
    label == 0 && 0 < sum || has_cover(t, k, list, label, sum, x)
}

/// The same beside each class.
fn is_covered<A: Allocator>(
    t: &LabelTables<A>,
    k: &KeptPositions<A>,
    list: &[u32],
    i: usize,
    g: usize,
) -> bool
    ensures { IsTrue result → (x : ℕ) → x < t.now.classes → IsBadWith t.now k.now i g x
        → IsCoveredAt t.now k.now i g x }
{
    for x in 0..t.classes {
        if !is_covered_at(t, k, list, i, g, x) {
            return false;
        }
    }
    true
}

/// Whether position `j` is bad beside class `x`, if position `i` with heap `g` more is.
fn is_as_bad_at<A: Allocator>(
    t: &LabelTables<A>,
    k: &KeptPositions<A>,
    i: usize,
    g: usize,
    j: usize,
    x: usize,
) -> bool
    ensures { IsTrue result → IsBadWith t.now k.now i g x → IsBadAt t.now k.now j x }
{
    is_good_with(t, k, i, g, x) || is_bad_at(t, k, j, x)
}

/// The same beside each class.
fn is_as_bad<A: Allocator>(
    t: &LabelTables<A>,
    k: &KeptPositions<A>,
    i: usize,
    g: usize,
    j: usize,
) -> bool
    ensures { IsTrue result → (x : ℕ) → x < t.now.classes → IsBadWith t.now k.now i g x
        → IsBadAt t.now k.now j x }
{
    for x in 0..t.classes {
        if !is_as_bad_at(t, k, i, g, j, x) {
            return false;
        }
    }
    true
}

/// Whether heap `h` is seen to be free at position `j`, or not to be at position `i`.
fn is_as_free_with<A: Allocator>(
    t: &LabelTables<A>,
    k: &KeptPositions<A>,
    i: usize,
    j: usize,
    h: usize,
) -> bool
    ensures { IsTrue result → IsFree t.now k.now i h → IsFree t.now k.now j h }
{
    is_not_free(t, k, i, h) || is_free(t, k, j, h) == Some(true)
}

/// The same of each heap.
fn is_as_free<A: Allocator>(t: &LabelTables<A>, k: &KeptPositions<A>, i: usize, j: usize) -> bool
    ensures { IsTrue result → (h : ℕ) → h < t.now.heaps → IsFree t.now k.now i h
        → IsFree t.now k.now j h }
{
    for h in 0..t.heaps {
        if !is_as_free_with(t, k, i, j, h) {
            return false;
        }
    }
    true
}

/// Whether position `i` with heap `g` more comes to position `j`.
fn comes<A: Allocator>(
    t: &LabelTables<A>,
    k: &KeptPositions<A>,
    i: usize,
    g: usize,
    j: usize,
) -> bool
    ensures { IsTrue result → Comes t.now k.now i g j }
{
    let Some(label) = label_with(t, k, i, g) else {
        return false;
    };
    let Some(sum) = weight_with(t, k, i, g) else {
        return false;
    };
    let Some(own) = number(&k.labels, j) else {
        return false;
    };
    let Some(less) = weight(&k.weights, j) else {
        return false;
    };
    0 < j
        && j < k.count
        && own == label
        && less <= sum
        && is_as_free(t, k, i, j)
        && is_as_bad(t, k, i, g, j)
}

/// Whether position `i` with heap `g` more comes to a position that is found, or is covered by the listed ones
/// of its label.
pub(crate) fn is_onward<A: Allocator>(
    t: &LabelTables<A>,
    k: &KeptPositions<A>,
    list: &[u32],
    i: usize,
    g: usize,
) -> bool
    ensures { IsTrue result → ((j : ℕ) × Comes t.now k.now i g j)
        ⊎ ((x : ℕ) → x < t.now.classes → IsBadWith t.now k.now i g x
        → IsCoveredAt t.now k.now i g x) }
{
    let Some(j) = number_at(&k.onward, t.heaps, i, g) else {
        return false;
    };
    if j < k.count {
        comes(t, k, i, g, j)
    } else {
        is_covered(t, k, list, i, g)
    }
}
