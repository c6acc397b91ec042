//! Why a presentation has no table.
ghost use Rattle.std.specs.Prelude.{◌≡◌};
ghost use Rattle.presentations.specs.Faults.{number_of};

use allocation::Memory;
use std::alloc::{AllocError, AllocFailed};

/// Why a presentation has no table.
#[derive(Clone, Copy, Debug, PartialEq, Eq)]
pub enum PresFault {
    /// The text isn't a presentation.
    Text,
    /// Some letter has no relation between two different powers of it alone.
    Unbounded,
    /// The powers' box is above the limit, or there are more than `LARGEST_FIRST_ORDER` elements.
    Limit,
    /// A growth was refused.
    Memory,
}

impl PresFault {
    /// 1 for `Text`, 2 for `Unbounded`, 3 for `Limit`, 9 for `Memory`.
    pub fn number(self) -> u8
        ensures { result ≡ number_of self }
    {
        match self {
            PresFault::Text => 1,
            PresFault::Unbounded => 2,
            PresFault::Limit => 3,
            PresFault::Memory => 9,
        }
    }
}

impl From<Memory> for PresFault {
    ghost use Rattle.std.specs.Prelude.{◌≡◌};
    ghost use Rattle.presentations.specs.declared.fault.PresFault.TheVariants.{Memory as OutOfMemory};

    ghost from_gives = { λ _ fault. fault ≡ OutOfMemory };

    fn from(_: Memory) -> PresFault {
        PresFault::Memory
    }
}

impl From<AllocError> for PresFault {
    ghost use Rattle.std.specs.Prelude.{◌≡◌};
    ghost use Rattle.presentations.specs.declared.fault.PresFault.TheVariants.{Memory as OutOfMemory};

    ghost from_gives = { λ _ fault. fault ≡ OutOfMemory };

    fn from(_: AllocError) -> PresFault {
        PresFault::Memory
    }
}

impl<T: Drop> From<AllocFailed<T>> for PresFault {
    ghost use Rattle.std.specs.Prelude.{◌≡◌};
    ghost use Rattle.presentations.specs.declared.fault.PresFault.TheVariants.{Memory as OutOfMemory};

    ghost from_gives = { λ _ fault. fault ≡ OutOfMemory };

    fn from(_: AllocFailed<T>) -> PresFault {
        PresFault::Memory
    }
}
