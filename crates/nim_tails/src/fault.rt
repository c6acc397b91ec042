//! Why a certificate doesn't show that its game is normal play beyond some heap.
ghost use Rattle.std.specs.Prelude.{◌≡◌};
ghost use Rattle.nim_tails.specs.declared.fault.TailFault.TheVariants.{Memory as OutOfMemory};
ghost use Rattle.nim_tails.specs.Tails.{tail_fault_from, tail_fault_number, tail_fault_name, tail_fault_place};

use crate::NimFault;
use allocation::Memory;
use std::alloc::AllocFailed;

/// Why a certificate doesn't show that its game is normal play beyond some heap. Each but the last is
/// answered only where it is true of the certificate.
#[derive(Clone, Copy, Debug, PartialEq, Eq)]
pub enum TailFault {
    /// The certificate is full: it speaks of all heaps already.
    Full,
    /// The kernel isn't a group of squares in which the identity alone is P: its element x isn't its
    /// own cube, or is P without being its own square, or its own square without being P.
    Ideal(u16),
    /// This heap is the last whose element is outside the kernel, and the certificate doesn't go far
    /// enough beyond it, or no digit leaves heaps.
    Length(u64),
    /// The nim value of this heap is 4096 or more.
    Large(u64),
    /// The kernel isn't normal play: with this heap, elements have two nim sums.
    Nim(u64),
    /// The kernel isn't normal play: this element of it, which isn't its identity, has the nim sum 0.
    Zero(u16),
    /// A growth was refused.
    Memory,
}

impl TailFault {
    /// The number under which it is printed: 41 to 46, and 9 for want of memory.
    pub fn number(self) -> u8
        ensures { result ≡ tail_fault_number self }
    {
        match self {
            TailFault::Full => 41,
            TailFault::Ideal(_) => 42,
            TailFault::Length(_) => 43,
            TailFault::Large(_) => 44,
            TailFault::Nim(_) => 45,
            TailFault::Zero(_) => 46,
            TailFault::Memory => 9,
        }
    }

    /// The name under which it is printed.
    pub fn name(self) -> &'static str
        ensures { result.now ≡ tail_fault_name self }
    {
        match self {
            TailFault::Full => "Full",
            TailFault::Ideal(_) => "Ideal",
            TailFault::Length(_) => "Length",
            TailFault::Large(_) => "Large",
            TailFault::Nim(_) => "Nim",
            TailFault::Zero(_) => "Zero",
            TailFault::Memory => "Memory",
        }
    }

    /// The heap or the element that it names.
    pub fn place(self) -> Option<u64>
        ensures { result ≡ tail_fault_place self }
    {
        match self {
            TailFault::Ideal(x) | TailFault::Zero(x) => Some(x as u64),
            TailFault::Length(n) | TailFault::Large(n) | TailFault::Nim(n) => Some(n),
            TailFault::Full | TailFault::Memory => None,
        }
    }
}

impl From<Memory> for TailFault {
    ghost from_gives = { λ _ e. e ≡ OutOfMemory };

    fn from(_: Memory) -> TailFault {
        TailFault::Memory
    }
}

impl<T: Drop> From<AllocFailed<T>> for TailFault {
    ghost from_gives = { λ _ e. e ≡ OutOfMemory };

    fn from(_: AllocFailed<T>) -> TailFault {
        TailFault::Memory
    }
}

impl From<NimFault> for TailFault {
    ghost from_gives = { λ f e. e ≡ tail_fault_from f };

    fn from(fault: NimFault) -> TailFault {
        match fault {
            NimFault::Large(heap) => TailFault::Large(heap),
            NimFault::Memory => TailFault::Memory,
        }
    }
}
