//! The marks of products.
ghost use Rattle.std.specs.Prelude.{◌≡◌, ◌≢◌, IfSome, IsTrue, false};
ghost use Rattle.kept_positions.specs.Told.{mark_of};

use crate::LabelTables;
use std::alloc::Allocator;

/// Whether the labels of class `x` are in the portion beside label `w`; `None` if a table is too short.
pub(crate) fn mark<A: Allocator>(
    t: &LabelTables<A>,
    marks: &[bool],
    w: usize,
    x: usize,
) -> Option<bool>
    ensures { IfSome result (λ v. v ≡ mark_of t.now marks.now w x) }
{
    let row = w.checked_mul(t.classes)?;
    let image = t.images.get(row.checked_add(x)?)?;
    match marks.get(*image as usize) {
        Some(v) => Some(*v),
        None => None,
    }
}

/// Whether label `w` tells classes `x` and `y` apart; `None` if a table is too short.
pub(crate) fn tells<A: Allocator>(
    t: &LabelTables<A>,
    marks: &[bool],
    w: usize,
    x: usize,
    y: usize,
) -> Option<bool>
    ensures { IfSome result (λ v. (IsTrue v → mark_of t.now marks.now w x ≢ mark_of t.now marks.now w y)
        × (v ≡ false → mark_of t.now marks.now w x ≡ mark_of t.now marks.now w y)) }
{
    let first = mark(t, marks, w, x)?;
    let second = mark(t, marks, w, y)?;
    Some(first != second)
}
