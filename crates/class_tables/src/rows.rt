//! The rows of the tables of classes.
ghost use Rattle.std.specs.Prelude.{◌≡◌, ◌<◌, ◌*◌, ◌/◌, ◌%◌, IfOk, IfErr, IfSome, length, slice_index, true};
ghost use Rattle.presented_tables.specs.Faults.{IsTrueOf};
ghost use Rattle.presented_tables.specs.Numbers.{AreNumbers};
ghost use Rattle.presented_tables.specs.Rows.{AreRows};
ghost use Rattle.presented_tables.specs.Tested.{AreWordsIn};
ghost use Rattle.class_tables.specs.Tables.{AreLists, IsImage, IsNext, IsMark};

use crate::beside::{heap_beside, heap_word, led_fold};
use crate::leading::form_of;
use crate::lists::ClassLists;
use presented_tables::{Beside, HeapNumbers, Presented, TablesFault};
use std::alloc::Allocator;

/// The row of entry `k`, and its place there.
fn row_and_place(k: usize, count: usize, width: usize) -> (usize, usize)
    requires { k < count * width }
    ensures row { result.0 ≡ k / width }
    ensures row_in { result.0 < count }
    ensures place { result.1 ≡ k % width }
    ensures place_in { result.1 < width }
{
    (k / width, k % width)
}

/// The number, if it is small enough.
fn small(y: usize) -> Option<u32>
    ensures { IfSome result (λ v. v ≡ y) }
{
    match u32::try_from(y) {
        Ok(v) => Some(v),
        Err(_) => None,
    }
}

/// The size of the heap of number `g`.
pub(crate) fn size_at<A: Allocator>(s: &HeapNumbers<A>, g: usize) -> Option<u64>
    ensures { IfSome result (λ n. n ≡ slice_index s.now.sizes g) }
{
    match s.sizes.get(g) {
        Some(n) => Some(*n as u64),
        None => None,
    }
}

/// The image of class `x` beside label `w`.
fn image<A: Allocator>(p: &Presented<A>, l: &ClassLists<A>, w: usize, x: usize) -> Option<u32>
    requires lists { AreLists p.now l.now }
    ensures { IfSome result (λ k. IsImage p.now l.now w x k) }
{
    let label = l.labels.get(w)?;
    let class = l.classes.get(x)?;
    let fold = led_fold(p, &l.tops, &l.folds, class, label)?;
    let found = l.images.find(&fold)?;
    small(found)
}

/// Label `w` with the heap of number `g`, or the number of labels if it is none.
fn next<A: Allocator>(
    p: &Presented<A>,
    l: &ClassLists<A>,
    s: &HeapNumbers<A>,
    w: usize,
    g: usize,
) -> Option<u32>
    ensures { IfSome result (λ v. IsNext p.now l.now s.now w g v) }
{
    let label = l.labels.get(w)?;
    let n = size_at(s, g)?;
    let form = form_of(p, label, &heap_word(p, n))?;
    match l.labels.find(&form) {
        Some(v) => small(v),
        None => small(l.labels.len()),
    }
}

/// Whether the heap of number `g` is bad beside the elements of image `k`.
fn mark<A: Allocator>(
    p: &Presented<A>,
    l: &ClassLists<A>,
    s: &HeapNumbers<A>,
    k: usize,
    g: usize,
) -> Option<bool>
    requires lists { AreLists p.now l.now }
    requires words { AreWordsIn p.now }
    ensures { IfSome result (λ b. IsMark p.now l.now s.now k g b) }
{
    let class = l.images.get(k)?;
    let n = size_at(s, g)?;
    match heap_beside(p, &l.base, &l.tops, class, n)? {
        Beside::Bad => Some(true),
        Beside::Good => Some(false),
        Beside::Both => None,
    }
}

/// The images of all classes beside all labels.
pub(crate) fn images<A: Allocator + Copy>(
    alloc: A,
    p: &Presented<A>,
    l: &ClassLists<A>,
) -> Result<Vec<u32, A>, TablesFault>
    requires lists { AreLists p.now l.now }
    ensures images { IfOk result (λ xs. AreRows (IsImage p.now l.now) (length l.now.labels) (length l.now.classes) 0 xs.items) }
    ensures fault { IfErr result (λ f. IsTrueOf p.now f) }
{
    let (count, width) = (l.labels.len(), l.classes.len());
    let Some(total) = count.checked_mul(width) else {
        return Err(TablesFault::Limit);
    };
    let mut images = Vec::new(alloc);
    for k in 0..total {
        let (w, x) = row_and_place(k, count, width);
        let Some(y) = image(p, l, w, x) else {
            return Err(TablesFault::Undecided);
        };
        images.push(y)?;
    }
    Ok(images)
}

/// All labels with each heap.
pub(crate) fn nexts<A: Allocator + Copy>(
    alloc: A,
    p: &Presented<A>,
    l: &ClassLists<A>,
    s: &HeapNumbers<A>,
) -> Result<Vec<u32, A>, TablesFault>
    ensures nexts { IfOk result (λ xs. AreRows (IsNext p.now l.now s.now) (length l.now.labels) (length s.now.sizes) 0 xs.items) }
    ensures fault { IfErr result (λ f. IsTrueOf p.now f) }
{
    let (count, width) = (l.labels.len(), s.sizes.len());
    let Some(total) = count.checked_mul(width) else {
        return Err(TablesFault::Limit);
    };
    let mut nexts = Vec::new(alloc);
    for k in 0..total {
        let (w, g) = row_and_place(k, count, width);
        let Some(v) = next(p, l, s, w, g) else {
            return Err(TablesFault::Limit);
        };
        nexts.push(v)?;
    }
    Ok(nexts)
}

/// Beside which images each heap is bad.
pub(crate) fn marks<A: Allocator + Copy>(
    alloc: A,
    p: &Presented<A>,
    l: &ClassLists<A>,
    s: &HeapNumbers<A>,
) -> Result<Vec<bool, A>, TablesFault>
    requires lists { AreLists p.now l.now }
    requires words { AreWordsIn p.now }
    ensures marks { IfOk result (λ xs. AreRows (IsMark p.now l.now s.now) (length l.now.images) (length s.now.sizes) true xs.items) }
    ensures fault { IfErr result (λ f. IsTrueOf p.now f) }
{
    let (count, width) = (l.images.len(), s.sizes.len());
    let Some(total) = count.checked_mul(width) else {
        return Err(TablesFault::Limit);
    };
    let mut marks = Vec::new(alloc);
    for k in 0..total {
        let (q, g) = row_and_place(k, count, width);
        let Some(bad) = mark(p, l, s, q, g) else {
            return Err(TablesFault::Undecided);
        };
        marks.push(bad)?;
    }
    Ok(marks)
}
