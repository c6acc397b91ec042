//! Checks that end right, or say that memory is wanting.
use allocation::SmallAllocator;
use checker::{Refusal, check};

/// How many heaps the position has that a refusal hands out, or 0.
fn heaps_of<A: SmallAllocator>(refusal: &Refusal<A>) -> usize {
    match refusal.failed() {
        Some((_, position)) => position.heaps().len(),
        None => 0,
    }
}

/// The number of the verdict, 0 for a yes, and the order of a yes, or how many heaps the position
/// has that a refusal hands out.
fn checked<A: SmallAllocator + Copy>(alloc: A, bytes: &[u8], limit: u32) -> (u8, usize) {
    match check(alloc, bytes, limit) {
        Ok(certified) => (0, certified.cert().order() as usize),
        Err(refusal) => (refusal.number(), heaps_of(&refusal)),
    }
}

/// Whether the check says yes with an order of 6, or the number of the refusal.
pub fn has_order_6<A: SmallAllocator + Copy>(alloc: A, bytes: &[u8]) -> Result<bool, u8> {
    let (number, order) = checked(alloc, bytes, 100);
    if number == 0 {
        Ok(order == 6)
    } else {
        Err(number)
    }
}

/// Whether the check hands out a position of more heaps than lie in a position itself, or the
/// number of another verdict.
pub fn is_refuted<A: SmallAllocator + Copy>(alloc: A, bytes: &[u8]) -> Result<bool, u8> {
    let (number, heaps) = checked(alloc, bytes, 1000);
    if number == 7 {
        Ok(heaps > 8)
    } else {
        Err(number)
    }
}
