//! Why a catalogue isn't loaded, and why an entry isn't added.
ghost use Rattle.std.specs.Prelude.{◌≡◌};
ghost use Rattle.catalogue.specs.Faults.{add_fault_number, load_fault_number, store_fault_number};
ghost use Rattle.catalogue.specs.declared.fault.AddFault.{AddFault};
ghost use Rattle.catalogue.specs.declared.fault.LoadFault.{LoadFault};
ghost use Rattle.catalogue.specs.declared.fault.StoreFault.{StoreFault};

use allocation::Memory;
use checker::Refusal;
use json::Invalid;
use std::alloc::{AllocError, AllocFailed};

/// Why bytes give no catalogue. Entries count from 1.
#[derive(Drop)]
pub enum LoadFault {
    /// The bytes are no JSON.
    Json,
    /// The JSON value is no catalogue file.
    Shape,
    /// The certificate of this entry is refused, and not for want of memory.
    Entry(usize, Refusal),
    /// The certificate of this entry is accepted, and the text beside it isn't that of its code.
    Code(usize),
    /// An earlier entry has the code and the kind of this one.
    Twice(usize),
    /// The certificate of this entry is accepted and the code is its own, and the heaps beside it
    /// aren't those of which it speaks.
    Heaps(usize),
    /// A growth was refused.
    Memory,
}

impl LoadFault {
    /// The number under which the fault is printed. It takes no memory.
    pub fn number(&self) -> u8
        ensures { result ≡ load_fault_number self.now }
    {
        match self {
            LoadFault::Json => 1,
            LoadFault::Shape => 2,
            LoadFault::Entry(_, _) => 3,
            LoadFault::Code(_) => 4,
            LoadFault::Twice(_) => 5,
            LoadFault::Heaps(_) => 6,
            LoadFault::Memory => 9,
        }
    }
}

impl From<AllocError> for LoadFault {
    ghost from_gives = { λ _ fault. fault ≡ LoadFault.Memory };

    fn from(_: AllocError) -> LoadFault {
        LoadFault::Memory
    }
}

impl<T: Drop> From<AllocFailed<T>> for LoadFault {
    ghost from_gives = { λ _ fault. fault ≡ LoadFault.Memory };

    fn from(_: AllocFailed<T>) -> LoadFault {
        LoadFault::Memory
    }
}

impl From<Invalid> for LoadFault {
    ghost from_gives = { λ _ fault. fault ≡ LoadFault.Json };

    fn from(_: Invalid) -> LoadFault {
        LoadFault::Json
    }
}

impl From<Memory> for LoadFault {
    ghost from_gives = { λ _ fault. fault ≡ LoadFault.Memory };

    fn from(_: Memory) -> LoadFault {
        LoadFault::Memory
    }
}

/// Why an entry isn't added.
#[derive(Clone, Copy, Debug, PartialEq, Eq)]
pub enum AddFault {
    /// The catalogue has an entry for the code and the kind.
    Present,
    /// A growth was refused.
    Memory,
}

impl AddFault {
    /// The number under which the fault is printed.
    pub fn number(self) -> u8
        ensures { result ≡ add_fault_number self }
    {
        match self {
            AddFault::Present => 1,
            AddFault::Memory => 9,
        }
    }
}

/// Why a catalogue isn't written.
#[derive(Clone, Copy, Debug, PartialEq, Eq)]
pub enum StoreFault {
    /// The sink failed.
    Write,
    /// A growth was refused.
    Memory,
}

impl StoreFault {
    /// The number under which the fault is printed.
    pub fn number(self) -> u8
        ensures { result ≡ store_fault_number self }
    {
        match self {
            StoreFault::Write => 1,
            StoreFault::Memory => 9,
        }
    }
}

impl From<Memory> for StoreFault {
    ghost from_gives = { λ _ fault. fault ≡ StoreFault.Memory };

    fn from(_: Memory) -> StoreFault {
        StoreFault::Memory
    }
}
