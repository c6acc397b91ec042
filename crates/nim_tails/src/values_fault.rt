//! Why nim values aren't told.
ghost use Rattle.std.specs.Prelude.{◌≡◌};
ghost use Rattle.nim_tails.specs.declared.values_fault.NimFault.TheVariants.{Memory as OutOfMemory};

use std::alloc::AllocFailed;

/// Why nim values aren't told.
#[derive(Clone, Copy, Debug, PartialEq, Eq)]
pub enum NimFault {
    /// The nim value of this heap is `NIM_BOUND` or more.
    Large(u64),
    /// A growth was refused.
    Memory,
}

impl<T: Drop> From<AllocFailed<T>> for NimFault {
    ghost from_gives = { λ _ e. e ≡ OutOfMemory };

    fn from(_: AllocFailed<T>) -> NimFault {
        NimFault::Memory
    }
}
