//! Elements that no position has.
ghost use Rattle.std.specs.Prelude.{◌≡◌, ◌<◌, ◌≤◌, IfOk, IfSome, IsTrue, false, length, slice_index_or};
ghost use Rattle.own_quotients.specs.Tables.{IsReached};
ghost use Rattle.own_quotients.specs.Marked.{AreClosed, AreClosedAt};

use crate::table::OwnTable;
use std::alloc::{AllocError, Allocator};

/// Marks an element, and notes it if it had no mark.
fn mark<B: Allocator>(
    marks: &mut [bool],
    found: &mut Vec<u16, B>,
    x: u16,
) -> Result<(), AllocError> {
    if let Some(is_marked) = marks.get_mut(x as usize) {
        if !*is_marked {
            *is_marked = true;
            found.push(x)?;
        }
    }
    Ok(())
}

/// Marks the products of an element with the heaps.
fn mark_products<A: Allocator, B: Allocator>(
    table: &OwnTable<A>,
    marks: &mut [bool],
    found: &mut Vec<u16, B>,
    x: u16,
) -> Result<(), AllocError> {
    for heap in table.heaps() {
        if x < table.order() && *heap < table.order() {
            mark(marks, found, table.times(x, *heap))?;
        }
    }
    Ok(())
}

/// Marks of the elements that positions have. Nothing is promised of them.
fn marks<A: Allocator, B: Allocator + Copy>(
    alloc: B,
    table: &OwnTable<A>,
    identity: u16,
) -> Result<Vec<bool, B>, AllocError> {
    let mut marks = vec![in alloc; false; table.order() as usize]?;
    let mut found: Vec<u16, B> = Vec::new(alloc);
    mark(&mut marks, &mut found, identity)?;
    for _ in 0..table.order() {
        let Some(x) = found.pop() else {
            break;
        };
        mark_products(table, &mut marks, &mut found, x)?;
    }
    Ok(marks)
}

/// Whether the products of an element with the heaps are marked.
fn are_closed_at<A: Allocator>(table: &OwnTable<A>, marks: &[bool], x: u16) -> bool
    requires x_in { x < table.now.order }
    requires long { table.now.order ≤ length marks.now }
    ensures { IsTrue result → AreClosedAt table.now marks.now x }
{
    let heaps = table.heaps();
    for i in 0..heaps.len() {
        if !marks[table.times(x, heaps[i]) as usize] {
            return false;
        }
    }
    true
}

/// Whether the identity is marked, and with each marked element its products with the heaps.
fn are_closed<A: Allocator>(table: &OwnTable<A>, identity: u16, marks: &[bool]) -> bool
    requires { identity < table.now.order }
    ensures { IsTrue result → AreClosed table.now identity marks.now }
{
    if marks.len() < table.order() as usize || !marks[identity as usize] {
        return false;
    }
    for x in 0..table.order() {
        if marks[x as usize] && !are_closed_at(table, marks, x) {
            return false;
        }
    }
    true
}

/// The first element without a mark.
fn unmarked(order: u16, marks: &[bool]) -> Option<u16>
    ensures { IfSome result
        (λ x. (x < order) × (slice_index_or marks.now x false ≡ false)) }
{
    for x in 0..order {
        if marks.get(x as usize).copied() == Some(false) {
            return Some(x);
        }
    }
    None
}

/// An element that no position has, if one is found.
pub fn unreached<A: Allocator, B: Allocator + Copy>(
    alloc: B,
    table: &OwnTable<A>,
    identity: u16,
) -> Result<Option<u16>, AllocError>
    requires { identity < table.now.order }
    ensures { IfOk result (λ found. IfSome found
        (λ x. (x < table.now.order) × (IsReached table.now identity x → ⊥))) }
{
    let marks = marks(alloc, table, identity)?;
    if are_closed(table, identity, &marks) {
        Ok(unmarked(table.order(), &marks))
    } else {
        Ok(None)
    }
}
