//! Handles.
ghost use Rattle.std.specs.Prelude.{◌≡◌};
ghost use Rattle.std.specs.declared.option.Option.{Option};
ghost use Rattle.std.specs.declared.option.Option.TheVariants.{None, Some};
ghost use Rattle.std.specs.Coded.{coded_option};
ghost use Rattle.misere_theory.specs.Certificates.{Certificate};
ghost use Rattle.opened.specs.Handing.{handle_owns};
ghost use Rattle.opened.specs.contracts.quotient.Quotient.{the_row as quotient_row};

use crate::Loose;
use crate::quotient::Quotient;
use std::alloc::Global;
use std::marker::Model;
use std::ptr::null_mut;

/// A box with a quotient, or none, as a pointer that goes out to C and comes back. In a contract its
/// `value` is the certificate.
///
/// It can't be dropped, so that no box is forgotten: what has one goes `into_box`, and what has none
/// is `spent`.
#[repr(C)]
pub struct Handle {
    at: *mut u8,
    alloc: Global,
    pub ghost value: { Option Certificate } by { coded_option quotient_row.coded },
}

impl Model for Handle {
    ghost also_owns = { λ h. handle_owns quotient_row h.alloc h.at h.value };
}

impl Handle {
    /// The handle of no box.
    pub fn none(alloc: Global) -> Handle
        ensures { result.value ≡ None }
    {
        Handle {
            at: null_mut(),
            alloc,
        }
    }

    /// The handle of a box.
    pub fn of(quotient: Box<Quotient>) -> Handle
        ensures { result.value ≡ Some quotient.value }
    {
        Handle::of_loose(Loose::of(quotient))
    }

    /// The box of a handle that has one.
    pub fn into_box(self) -> Box<Quotient>
        requires { (c : Certificate) × (self.value ≡ Some c) }
        ensures { self.value ≡ Some result.value }
    {
        self.into_loose().into_box()
    }

    /// The end of a handle that has none.
    pub(crate) fn spent(self)
        requires { self.value ≡ None }
    {
        let Handle { at: _, alloc: _ } = self;
    }

    fn of_loose(loose: Loose<Quotient, Global>) -> Handle
        ensures { result.value ≡ Some loose.value }
    {
        let Loose { at, alloc } = loose;
        Handle {
            at: at.cast::<u8>(),
            alloc,
        }
    }

    fn into_loose(self) -> Loose<Quotient, Global>
        requires { (c : Certificate) × (self.value ≡ Some c) }
        ensures { self.value ≡ Some result.value }
    {
        let Handle { at, alloc } = self;
        Loose {
            at: at.cast::<Quotient>(),
            alloc,
        }
    }
}

unsafe impl Send for Handle {}
