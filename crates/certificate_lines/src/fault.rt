//! Why bytes are no certificate.
ghost use Rattle.std.specs.Prelude.{◌≡◌};
ghost use Rattle.certificate_lines.specs.Faults.{text_fault_number};
ghost use Rattle.certificate_lines.specs.declared.fault.TextFault.TheVariants.{Memory as OutOfMemory};

use allocation::Memory;
use std::alloc::{AllocError, AllocFailed};
use thiserror::Error;

/// Why bytes are not read as a certificate.
#[derive(Clone, Copy, Debug, PartialEq, Eq, Error)]
pub enum TextFault {
    /// They spell none.
    #[error("not a certificate")]
    Text,
    /// A growth was refused.
    #[error("out of memory")]
    Memory,
}

impl TextFault {
    /// The number under which the fault is printed.
    pub fn number(self) -> u8
        ensures { result ≡ text_fault_number self }
    {
        match self {
            TextFault::Text => 1,
            TextFault::Memory => 9,
        }
    }
}

impl From<AllocError> for TextFault {
    ghost from_gives = { λ _ e. e ≡ OutOfMemory };

    fn from(_: AllocError) -> TextFault {
        TextFault::Memory
    }
}

impl<T: Drop> From<AllocFailed<T>> for TextFault {
    ghost from_gives = { λ _ e. e ≡ OutOfMemory };

    fn from(_: AllocFailed<T>) -> TextFault {
        TextFault::Memory
    }
}

impl From<Memory> for TextFault {
    ghost from_gives = { λ _ e. e ≡ OutOfMemory };

    fn from(_: Memory) -> TextFault {
        TextFault::Memory
    }
}
