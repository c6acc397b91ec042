//! Why a file was not read or written.
ghost use Rattle.std.specs.Prelude.{◌≡◌};
ghost use Rattle.streams.specs.declared.file_fault.FileFault.TheVariants.{«Memory» as OutOfMemory};

use allocation::Memory;
use std::alloc::{AllocError, AllocFailed};

/// Why a file was not read or written.
#[derive(Clone, Copy, Debug, PartialEq, Eq)]
pub enum FileFault {
    /// It isn't there, isn't a file, or holds more than is read of one; or the device failed.
    Device,
    /// A growth was refused.
    Memory,
}

impl From<AllocError> for FileFault {
    ghost from_gives = { λ _ e. e ≡ OutOfMemory };

    fn from(_: AllocError) -> FileFault {
        FileFault::Memory
    }
}

impl<T: Drop> From<AllocFailed<T>> for FileFault {
    ghost from_gives = { λ _ e. e ≡ OutOfMemory };

    fn from(_: AllocFailed<T>) -> FileFault {
        FileFault::Memory
    }
}

impl From<Memory> for FileFault {
    ghost from_gives = { λ _ e. e ≡ OutOfMemory };

    fn from(_: Memory) -> FileFault {
        FileFault::Memory
    }
}
