//! The rows of the tables of labels.
ghost use Rattle.std.specs.Prelude.{◌≡◌, ◌<◌, ◌+◌, ◌*◌, ◌/◌, ◌%◌, IfOk, IfErr, IfSome, length, slice_index, slice_index_or, true};
ghost use Rattle.presented_tables.specs.Elements.{AreElements};
ghost use Rattle.presented_tables.specs.Faults.{IsTrueOf};
ghost use Rattle.presented_tables.specs.Numbers.{AreNumbers};
ghost use Rattle.presented_tables.specs.Reached.{AreReached};
ghost use Rattle.presented_tables.specs.Rows.{AreRows, AreFilled, IsImage, IsNext, AreImages, AreNexts, IsMark, IsColumnMark};

use crate::acting::{act, with_heap};
use crate::beside::{Beside, heap_beside};
use crate::elements::{ListedElements, word_at};
use crate::fault::TablesFault;
use crate::numbers::{HeapNumbers, number, small};
use crate::presentation::Presented;
use crate::reached::reached;
use std::alloc::Allocator;

/// The row of entry `k`, and its place there.
fn row_and_place(k: usize, count: usize, width: usize) -> (usize, usize)
    requires { k < count * width }
    ensures row { result.0 ≡ k / width }
    ensures row_in { result.0 < count }
    ensures place { result.1 ≡ k % width }
    ensures place_in { result.1 < width }
{
    (k / width, k % width)
}

/// The product of elements `w` and `x`.
fn image<A: Allocator>(
    p: &Presented<A>,
    e: &ListedElements<A>,
    w: usize,
    x: usize,
) -> Result<u32, TablesFault>
    requires elements { AreElements p.now e.now }
    requires inside { x < length e.now.words }
    ensures image { IfOk result (λ y. IsImage p.now e.now w x y) }
    ensures fault { IfErr result (λ f. IsTrueOf p.now f) }
{
    let Some(word) = word_at(e, w) else {
        return Err(TablesFault::Undecided);
    };
    let Some(y) = act(p, e, x, &word) else {
        return Err(TablesFault::Undecided);
    };
    match small(y) {
        Some(y) => Ok(y),
        None => Err(TablesFault::Limit),
    }
}

/// Element `x` with the heap of number `g`.
fn next<A: Allocator>(
    p: &Presented<A>,
    e: &ListedElements<A>,
    s: &HeapNumbers<A>,
    x: usize,
    g: usize,
) -> Result<u32, TablesFault>
    requires elements { AreElements p.now e.now }
    requires inside { x < length e.now.words }
    ensures next { IfOk result (λ y. IsNext p.now e.now s.now x g y) }
    ensures fault { IfErr result (λ f. IsTrueOf p.now f) }
{
    let Some(n) = number(&s.sizes, g) else {
        return Err(TablesFault::Undecided);
    };
    let Some(y) = with_heap(p, e, x, n as u64) else {
        return Err(TablesFault::Undecided);
    };
    match small(y) {
        Some(y) => Ok(y),
        None => Err(TablesFault::Limit),
    }
}

/// Entry `y` of row `x`.
fn mark_at(list: &[bool], width: usize, x: usize, y: usize) -> Option<bool>
    ensures { IfSome result (λ b. b ≡ slice_index_or list.now (x * width + y) true) }
{
    let row = x.checked_mul(width)?;
    match list.get(row.checked_add(y)?) {
        Some(b) => Some(*b),
        None => None,
    }
}

/// Whether the heap of number `g` is bad beside element `x`; or it moves within the portion.
fn mark<A: Allocator>(
    p: &Presented<A>,
    e: &ListedElements<A>,
    s: &HeapNumbers<A>,
    images: &[u32],
    reached: &[u32],
    x: usize,
    g: usize,
) -> Result<bool, TablesFault>
    requires elements { AreElements p.now e.now }
    requires numbers { AreNumbers p.now s.now }
    requires images { AreImages p.now e.now images.now }
    requires reached { AreReached p.now e.now (slice_index s.now.sizes g) reached.now }
    requires inside { x < length e.now.words }
    requires heap { g < length s.now.sizes }
    ensures mark { IfOk result (λ b. IsMark p.now e.now s.now x g b) }
    ensures fault { IfErr result (λ f. IsTrueOf p.now f) }
{
    let Some(n) = number(&s.sizes, g) else {
        return Err(TablesFault::Undecided);
    };
    let Some(word) = word_at(e, x) else {
        return Err(TablesFault::Undecided);
    };
    match heap_beside(p, e, images, reached, x, n as u64) {
        Some(Beside::Bad) => Ok(true),
        Some(Beside::Good) => Ok(false),
        Some(Beside::Both) => Err(TablesFault::Moves(n as u64, word)),
        None => Err(TablesFault::Undecided),
    }
}

/// The columns so far with that of the heap of number `g`.
fn with_column<A: Allocator>(
    p: &Presented<A>,
    e: &ListedElements<A>,
    s: &HeapNumbers<A>,
    images: &[u32],
    reached: &[u32],
    g: usize,
    mut columns: Vec<bool, A>,
) -> Result<Vec<bool, A>, TablesFault>
    requires elements { AreElements p.now e.now }
    requires numbers { AreNumbers p.now s.now }
    requires images { AreImages p.now e.now images.now }
    requires reached { AreReached p.now e.now (slice_index s.now.sizes g) reached.now }
    requires heap { g < length s.now.sizes }
    requires filled { AreFilled (IsColumnMark p.now e.now s.now) (length e.now.words) (g * length e.now.words) true columns.items }
    ensures filled { IfOk result (λ xs. AreFilled (IsColumnMark p.now e.now s.now) (length e.now.words) ((g + 1) * length e.now.words) true xs.items) }
    ensures fault { IfErr result (λ f. IsTrueOf p.now f) }
{
    for x in 0..e.words.len() {
        let bad = mark(p, e, s, images, reached, x, g)?;
        columns.push(bad)?;
    }
    Ok(columns)
}

/// For each heap beside which elements it is bad: its options are gone through once.
fn columns<A: Allocator + Copy>(
    alloc: A,
    p: &Presented<A>,
    e: &ListedElements<A>,
    s: &HeapNumbers<A>,
    images: &[u32],
    nexts: &[u32],
) -> Result<Vec<bool, A>, TablesFault>
    requires elements { AreElements p.now e.now }
    requires numbers { AreNumbers p.now s.now }
    requires images { AreImages p.now e.now images.now }
    requires nexts { AreNexts p.now e.now s.now nexts.now }
    ensures columns { IfOk result (λ xs. AreRows (IsColumnMark p.now e.now s.now) (length s.now.sizes) (length e.now.words) true xs.items) }
    ensures fault { IfErr result (λ f. IsTrueOf p.now f) }
{
    let mut columns = Vec::new(alloc);
    for g in 0..s.sizes.len() {
        let Some(n) = number(&s.sizes, g) else {
            return Err(TablesFault::Undecided);
        };
        let reached = reached(alloc, p, e, s, nexts, n as u64)?;
        columns = with_column(p, e, s, images, &reached, g, columns)?;
    }
    Ok(columns)
}

/// The products of all elements.
pub(crate) fn images<A: Allocator + Copy>(
    alloc: A,
    p: &Presented<A>,
    e: &ListedElements<A>,
) -> Result<Vec<u32, A>, TablesFault>
    requires { AreElements p.now e.now }
    ensures images { IfOk result (λ xs. AreRows (IsImage p.now e.now) (length e.now.words) (length e.now.words) 0 xs.items) }
    ensures fault { IfErr result (λ f. IsTrueOf p.now f) }
{
    let count = e.words.len();
    let Some(total) = count.checked_mul(count) else {
        return Err(TablesFault::Limit);
    };
    let mut images = Vec::new(alloc);
    for k in 0..total {
        let (w, x) = row_and_place(k, count, count);
        let y = image(p, e, w, x)?;
        images.push(y)?;
    }
    Ok(images)
}

/// All elements with each heap.
pub(crate) fn nexts<A: Allocator + Copy>(
    alloc: A,
    p: &Presented<A>,
    e: &ListedElements<A>,
    s: &HeapNumbers<A>,
) -> Result<Vec<u32, A>, TablesFault>
    requires { AreElements p.now e.now }
    ensures nexts { IfOk result (λ xs. AreRows (IsNext p.now e.now s.now) (length e.now.words) (length s.now.sizes) 0 xs.items) }
    ensures fault { IfErr result (λ f. IsTrueOf p.now f) }
{
    let (count, width) = (e.words.len(), s.sizes.len());
    let Some(total) = count.checked_mul(width) else {
        return Err(TablesFault::Limit);
    };
    let mut nexts = Vec::new(alloc);
    for k in 0..total {
        let (x, g) = row_and_place(k, count, width);
        let y = next(p, e, s, x, g)?;
        nexts.push(y)?;
    }
    Ok(nexts)
}

/// Beside which elements each heap is bad.
pub(crate) fn marks<A: Allocator + Copy>(
    alloc: A,
    p: &Presented<A>,
    e: &ListedElements<A>,
    s: &HeapNumbers<A>,
    images: &[u32],
    nexts: &[u32],
) -> Result<Vec<bool, A>, TablesFault>
    requires elements { AreElements p.now e.now }
    requires numbers { AreNumbers p.now s.now }
    requires images { AreImages p.now e.now images.now }
    requires nexts { AreNexts p.now e.now s.now nexts.now }
    ensures marks { IfOk result (λ xs. AreRows (IsMark p.now e.now s.now) (length e.now.words) (length s.now.sizes) true xs.items) }
    ensures fault { IfErr result (λ f. IsTrueOf p.now f) }
{
    let (count, width) = (e.words.len(), s.sizes.len());
    let Some(total) = count.checked_mul(width) else {
        return Err(TablesFault::Limit);
    };
    let columns = columns(alloc, p, e, s, images, nexts)?;
    let mut marks = Vec::new(alloc);
    for k in 0..total {
        let (x, g) = row_and_place(k, count, width);
        let Some(bad) = mark_at(&columns, count, g, x) else {
            return Err(TablesFault::Undecided);
        };
        marks.push(bad)?;
    }
    Ok(marks)
}
