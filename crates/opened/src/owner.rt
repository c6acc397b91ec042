//! Opened infinite quotients as C keeps them.
ghost use Rattle.std.specs.Prelude.{◌≡◌};
ghost use Rattle.std.specs.Option.{MatchOption};
ghost use Rattle.std.specs.declared.option.Option.TheVariants.{None, Some};
ghost use Rattle.opened.specs.Opening.{count_of};

use crate::infinite::InfiniteQuotient;
use crate::infinite_handle::InfiniteHandle;
use std::alloc::Global;
use std::mem;

/// An infinite quotient that was opened, or none. In a contract its `handle.value` is what is kept of its
/// text, if there is one.
#[repr(C)]
pub struct OpenedInfinite {
    /// 1, or 0 where nothing is opened.
    full: u64,
    pub handle: InfiniteHandle,
    pub ghost counts: { full ≡ count_of handle.value },
}

impl OpenedInfinite {
    /// Takes the quotient out.
    pub fn take(&mut self, alloc: Global) -> Option<Box<InfiniteQuotient>>
        ensures none { self.new.handle.value ≡ None }
        ensures taken { MatchOption result (self.old.handle.value ≡ None)
            (λ b. self.old.handle.value ≡ Some b.value) }
    {
        if self.full == 0 {
            return None;
        }
        self.full = 0;
        let handle = mem::replace(&mut self.handle, InfiniteHandle::none(alloc));
        Some(handle.into_box())
    }

    /// Puts a quotient in. One that is there is closed.
    pub fn put(&mut self, alloc: Global, quotient: Box<InfiniteQuotient>)
        ensures { self.new.handle.value ≡ Some quotient.value }
    {
        drop(self.take(alloc));
        self.full = 1;
        mem::replace(&mut self.handle, InfiniteHandle::of(quotient)).spent();
    }
}

impl Drop for OpenedInfinite {
    fn drop(self) {
        let OpenedInfinite { full, handle } = self;
        if full != 0 {
            drop(handle.into_box());
        } else {
            handle.spent();
        }
    }
}
