//! Reading numbers, of which `None` says that there is none there.
ghost use Rattle.std.specs.Prelude.{◌≡◌, ◌+◌, ◌*◌, IfSome, IsTrue, true, false, slice_index, slice_index_or};
ghost use Rattle.kept_positions.specs.Numbers.{entry, is_bad, IsFree};

use crate::tables::{KeptPositions, LabelTables};
use std::alloc::Allocator;

/// Number `x` of the list.
pub(crate) fn number(list: &[u32], x: usize) -> Option<usize>
    ensures { IfSome result (λ v. v ≡ slice_index list.now x) }
{
    match list.get(x) {
        Some(v) => Some(*v as usize),
        None => None,
    }
}

/// Weight `x` of the list.
pub(crate) fn weight(list: &[u64], x: usize) -> Option<u64>
    ensures { IfSome result (λ v. v ≡ slice_index list.now x) }
{
    match list.get(x) {
        Some(v) => Some(*v),
        None => None,
    }
}

/// Numbers `x` and `x + 1` of the list.
pub(crate) fn bounds(list: &[u32], x: usize) -> Option<(usize, usize)>
    ensures { IfSome result (λ b. (b.0 ≡ slice_index list.now x)
        × (b.1 ≡ slice_index list.now (x + 1))) }
{
    let from = number(list, x)?;
    let to = number(list, x.checked_add(1)?)?;
    Some((from, to))
}

/// Entry `y` of row `x`.
pub(crate) fn number_at(list: &[u32], width: usize, x: usize, y: usize) -> Option<usize>
    ensures { IfSome result (λ v. v ≡ entry list.now width x y) }
{
    let row = x.checked_mul(width)?;
    number(list, row.checked_add(y)?)
}

/// Whether heap `g` is bad beside class `x` with label `w`.
pub(crate) fn is_bad<A: Allocator>(t: &LabelTables<A>, x: usize, w: usize, g: usize) -> Option<bool>
    ensures { IfSome result (λ v. v ≡ is_bad t.now x w g) }
{
    let image = number_at(&t.images, t.classes, w, x)?;
    let row = image.checked_mul(t.heaps)?;
    match t.bad.get(row.checked_add(g)?) {
        Some(v) => Some(*v),
        None => None,
    }
}

/// Whether class `x` is marked.
pub(crate) fn is_marked(marks: &[bool], x: usize) -> bool
    ensures { result ≡ slice_index_or marks.now x false }
{
    match marks.get(x) {
        Some(v) => *v,
        None => false,
    }
}

/// Whether heap `g` is free at position `i`.
pub(crate) fn is_free<A: Allocator>(
    t: &LabelTables<A>,
    k: &KeptPositions<A>,
    i: usize,
    g: usize,
) -> Option<bool>
    ensures { IfSome result (λ v. v ≡ slice_index_or k.now.free (i * t.now.heaps + g) false) }
{
    let row = i.checked_mul(t.heaps)?;
    Some(is_marked(&k.free, row.checked_add(g)?))
}

/// Whether heap `g` is seen not to be free at position `i`.
pub(crate) fn is_not_free<A: Allocator>(
    t: &LabelTables<A>,
    k: &KeptPositions<A>,
    i: usize,
    g: usize,
) -> bool
    ensures { IsTrue result → IsFree t.now k.now i g → ⊥ }
{
    is_free(t, k, i, g) == Some(false)
}
