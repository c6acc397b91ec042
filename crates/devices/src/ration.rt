//! An allocator that refuses one call, for tests of want of memory.
//!
//! How the calls are counted is a contract, of `counted`. That `new` and `has_refused` begin and
//! tell that count is tested alone, since no contract says what a cell holds.
ghost use Rattle.std.specs.Prelude.{◌≡◌, ◌-◌, ◌↔◌, IsTrue};

use std::alloc::{AllocError, Allocator};
use std::cell::Cell;

/// Passes each call on to `inner`, but refuses one: the one that the count names, from 1.
pub struct Ration<B: Allocator> {
    inner: B,
    until: Cell<u64>,
}

impl<B: Allocator> Ration<B> {
    /// Refuses the call of this number, or none at 0.
    pub fn new(inner: B, refused: u64) -> Ration<B> {
        Ration {
            inner,
            until: Cell::new(refused),
        }
    }

    /// Whether the refusal is behind us.
    pub fn has_refused(&self) -> bool {
        self.until.get() == 0
    }
}

impl<B: Allocator> Drop for Ration<B> {
    fn drop(self) {
        let Self { inner: _, until: _ } = self;
    }
}

/// Whether a call is refused where so many are left up to the refused one, and how many are left
/// behind it.
fn counted(left: u64) -> (bool, u64)
    ensures refused { IsTrue result.0 ↔ (left ≡ 1) }
    ensures left { result.1 ≡ left - 1 }
{
    (left == 1, left.saturating_sub(1))
}

fn is_refused(until: &Cell<u64>) -> bool {
    let (refused, left) = counted(until.get());
    until.set(left);
    refused
}

unsafe impl<B: Allocator> Allocator for Ration<B> {
    ghost dealloc_token = { λ heap ty ptr. B.dealloc_token heap.inner ty ptr };

    fn allocate(&self, size: usize, align: usize) -> Result<*mut u8, AllocError> {
        if is_refused(&self.until) {
            return Err(AllocError);
        }
        self.inner.allocate(size, align)
    }

    unsafe fn deallocate(&self, ptr: *mut u8, size: usize, align: usize) {
        self.inner.deallocate(ptr, size, align);
    }
}
