//! Whether no position is bad beside nothing that is a position and any more of the heaps that are free at it.
ghost use Rattle.std.specs.Prelude.{◌<◌, ◌≤◌, ℕ, List, Bool, IsTrue, slice_index};
ghost use Rattle.kept_positions.specs.Numbers.{IsMarked, IsClosedBy, IsGoodClass, IsFamily};

use crate::entries::is_good_at;
use crate::reads::{bounds, is_free, is_marked, is_not_free, number};
use crate::slots::{at, read};
use crate::tables::{ClassTurns, KeptPositions, LabelTables};
use std::alloc::Allocator;

/// Marks class `x`, and says whether it wasn't marked.
fn mark(marks: &mut [bool], x: usize) -> bool {
    if x < marks.len() && !marks[x] {
        marks[x] = true;
        return true;
    }
    false
}

/// Marks the classes to which class `x` comes by heap `g`, and says whether there is a new one.
fn mark_turns<A: Allocator>(
    t: &LabelTables<A>,
    u: &ClassTurns<A>,
    marks: &mut [bool],
    x: usize,
    g: usize,
) -> bool {
    let cell = at(t.classes, g, x);
    let from = read(&u.first, cell);
    let to = read(&u.first, cell.saturating_add(1));
    let mut fresh = false;
    for o in from..to {
        fresh |= mark(marks, read(&u.onto, o));
    }
    fresh
}

/// Marks those to which the marked ones come by the heaps that are free at position `i`, and says whether there is a
/// new one.
fn mark_more<A: Allocator>(
    t: &LabelTables<A>,
    u: &ClassTurns<A>,
    k: &KeptPositions<A>,
    i: usize,
    marks: &mut [bool],
) -> bool {
    let mut fresh = false;
    for g in 0..t.heaps {
        if is_free(t, k, i, g) == Some(true) {
            for x in 0..t.classes {
                if is_marked(marks, x) {
                    fresh |= mark_turns(t, u, marks, x, g);
                }
            }
        }
    }
    fresh
}

/// Marks the class of nothing, and all to which it comes by the heaps that are free at position `i`. Nothing is
/// promised of it.
fn mark_family<A: Allocator>(
    t: &LabelTables<A>,
    u: &ClassTurns<A>,
    k: &KeptPositions<A>,
    i: usize,
    marks: &mut [bool],
) {
    for m in marks.iter_mut() {
        *m = false;
    }
    mark(marks, t.start);
    for _ in 0..t.classes {
        if !mark_more(t, u, k, i, marks) {
            break;
        }
    }
}

/// Whether class `o` of the list is seen to be marked.
fn is_marked_at<A: Allocator>(u: &ClassTurns<A>, marks: &[bool], o: usize) -> bool
    ensures { IsTrue result → IsMarked marks.now (slice_index u.now.onto o) }
{
    match number(&u.onto, o) {
        Some(z) => is_marked(marks, z),
        None => false,
    }
}

/// Whether these classes are.
fn are_marked<A: Allocator>(u: &ClassTurns<A>, marks: &[bool], from: usize, to: usize) -> bool
    ensures { IsTrue result → (o : ℕ) → from ≤ o → o < to → IsMarked marks.now (slice_index u.now.onto o) }
{
    for o in from..to {
        if !is_marked_at(u, marks, o) {
            return false;
        }
    }
    true
}

/// Whether those are to which class `x` comes by heap `g`, if the heap is free at position `i`.
fn is_turned_with<A: Allocator>(
    t: &LabelTables<A>,
    u: &ClassTurns<A>,
    k: &KeptPositions<A>,
    i: usize,
    marks: &[bool],
    x: usize,
    g: usize,
) -> bool
    ensures { IsTrue result → IsClosedBy t.now u.now k.now i marks.now x g }
{
    if is_not_free(t, k, i, g) {
        return true;
    }
    let Some(row) = g.checked_mul(t.classes) else {
        return false;
    };
    let Some(cell) = row.checked_add(x) else {
        return false;
    };
    match bounds(&u.first, cell) {
        Some((from, to)) => are_marked(u, marks, from, to),
        None => false,
    }
}

/// The same of each heap.
fn is_turned<A: Allocator>(
    t: &LabelTables<A>,
    u: &ClassTurns<A>,
    k: &KeptPositions<A>,
    i: usize,
    marks: &[bool],
    x: usize,
) -> bool
    ensures { IsTrue result → (g : ℕ) → g < t.now.heaps → IsClosedBy t.now u.now k.now i marks.now x g }
{
    for g in 0..t.heaps {
        if !is_turned_with(t, u, k, i, marks, x, g) {
            return false;
        }
    }
    true
}

/// Whether position `i` isn't bad beside class `x`, and the classes to which this comes by free heaps are marked, if it
/// is itself.
fn is_good_class<A: Allocator>(
    t: &LabelTables<A>,
    u: &ClassTurns<A>,
    k: &KeptPositions<A>,
    i: usize,
    marks: &[bool],
    x: usize,
) -> bool
    ensures { IsTrue result → IsMarked marks.now x → IsGoodClass t.now u.now k.now i marks.now x }
{
    !is_marked(marks, x) || is_good_at(t, k, i, x) && is_turned(t, u, k, i, marks, x)
}

/// Whether the marks show that position `i` stands for positions that aren't bad beside nothing.
fn is_shown<A: Allocator>(
    t: &LabelTables<A>,
    u: &ClassTurns<A>,
    k: &KeptPositions<A>,
    i: usize,
    marks: &[bool],
) -> bool
    ensures { IsTrue result → IsFamily t.now u.now k.now i marks.now }
{
    if !is_marked(marks, t.start) {
        return false;
    }
    for x in 0..t.classes {
        if !is_good_class(t, u, k, i, marks, x) {
            return false;
        }
    }
    true
}

/// Whether it is seen that position `i` does.
fn is_family<A: Allocator>(
    t: &LabelTables<A>,
    u: &ClassTurns<A>,
    k: &KeptPositions<A>,
    i: usize,
    marks: &mut [bool],
) -> bool
    ensures { IsTrue result → (shown : List Bool) × IsFamily t.now u.now k.now i shown }
{
    mark_family(t, u, k, i, marks);
    is_shown(t, u, k, i, marks)
}

/// The same of each position but the first.
pub(crate) fn are_families<A: Allocator>(
    t: &LabelTables<A>,
    u: &ClassTurns<A>,
    k: &KeptPositions<A>,
    marks: &mut [bool],
) -> bool
    ensures { IsTrue result → (i : ℕ) → 1 ≤ i → i < k.now.count
        → (shown : List Bool) × IsFamily t.now u.now k.now i shown }
{
    for i in 1..k.count {
        if !is_family(t, u, k, i, marks) {
            return false;
        }
    }
    true
}
