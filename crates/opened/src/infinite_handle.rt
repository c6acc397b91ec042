//! Handles.
ghost use Rattle.std.specs.Prelude.{◌≡◌};
ghost use Rattle.std.specs.declared.option.Option.{Option};
ghost use Rattle.std.specs.declared.option.Option.TheVariants.{None, Some};
ghost use Rattle.std.specs.Coded.{coded_option};
ghost use Rattle.opened.specs.Handing.{handle_owns};
ghost use Rattle.opened.specs.contracts.infinite.InfiniteQuotient.{the_row as quotient_row};
ghost use Rattle.opened.specs.declared.text.AcceptedText.{AcceptedText};

use crate::Loose;
use crate::infinite::InfiniteQuotient;
use std::alloc::Global;
use std::marker::Model;
use std::ptr::null_mut;

/// A box with a quotient, or none, as a pointer that goes out to C and comes back. In a contract its
/// `value` is the text.
///
/// It can't be dropped, so that no box is forgotten: what has one goes `into_box`, and what has none
/// is `spent`.
#[repr(C)]
pub struct InfiniteHandle {
    at: *mut u8,
    alloc: Global,
    pub ghost value: { Option AcceptedText } by { coded_option quotient_row.coded },
}

impl Model for InfiniteHandle {
    ghost also_owns = { λ h. handle_owns quotient_row h.alloc h.at h.value };
}

impl InfiniteHandle {
    /// The handle of no box.
    pub fn none(alloc: Global) -> InfiniteHandle
        ensures { result.value ≡ None }
    {
        InfiniteHandle {
            at: null_mut(),
            alloc,
        }
    }

    /// The handle of a box.
    pub fn of(quotient: Box<InfiniteQuotient>) -> InfiniteHandle
        ensures { result.value ≡ Some quotient.value }
    {
        InfiniteHandle::of_loose(Loose::of(quotient))
    }

    /// The box of a handle that has one.
    pub fn into_box(self) -> Box<InfiniteQuotient>
        requires { (k : AcceptedText) × (self.value ≡ Some k) }
        ensures { self.value ≡ Some result.value }
    {
        self.into_loose().into_box()
    }

    /// The end of a handle that has none.
    pub(crate) fn spent(self)
        requires { self.value ≡ None }
    {
        let InfiniteHandle { at: _, alloc: _ } = self;
    }

    fn of_loose(loose: Loose<InfiniteQuotient, Global>) -> InfiniteHandle
        ensures { result.value ≡ Some loose.value }
    {
        let Loose { at, alloc } = loose;
        InfiniteHandle {
            at: at.cast::<u8>(),
            alloc,
        }
    }

    fn into_loose(self) -> Loose<InfiniteQuotient, Global>
        requires { (k : AcceptedText) × (self.value ≡ Some k) }
        ensures { self.value ≡ Some result.value }
    {
        let InfiniteHandle { at, alloc } = self;
        Loose {
            at: at.cast::<InfiniteQuotient>(),
            alloc,
        }
    }
}

unsafe impl Send for InfiniteHandle {}
