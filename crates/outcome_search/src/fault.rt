//! Why a search gives no answer.
ghost use Rattle.std.specs.Prelude.{◌≡◌};
ghost use Rattle.outcome_search.specs.Faults.{search_fault_number};

use allocation::Memory;
use std::alloc::{AllocError, AllocFailed};

/// Why a search gave no answer.
#[derive(Clone, Copy, Debug, PartialEq, Eq)]
pub enum SearchFault {
    /// More positions can be reached than the budget allows.
    Budget,
    /// A growth was refused.
    Memory,
}

impl SearchFault {
    /// The number under which the fault is printed.
    pub fn number(self) -> u8
        ensures { result ≡ search_fault_number self }
    {
        match self {
            SearchFault::Budget => 1,
            SearchFault::Memory => 9,
        }
    }
}

impl From<Memory> for SearchFault {
    ghost use Rattle.outcome_search.specs.declared.fault.SearchFault.{SearchFault};

    ghost from_gives = { λ _ fault. fault ≡ SearchFault.Memory };

    fn from(_: Memory) -> SearchFault {
        SearchFault::Memory
    }
}

impl From<AllocError> for SearchFault {
    ghost use Rattle.outcome_search.specs.declared.fault.SearchFault.{SearchFault};

    ghost from_gives = { λ _ fault. fault ≡ SearchFault.Memory };

    fn from(_: AllocError) -> SearchFault {
        SearchFault::Memory
    }
}

impl<T: Drop> From<AllocFailed<T>> for SearchFault {
    ghost use Rattle.outcome_search.specs.declared.fault.SearchFault.{SearchFault};

    ghost from_gives = { λ _ fault. fault ≡ SearchFault.Memory };

    fn from(_: AllocFailed<T>) -> SearchFault {
        SearchFault::Memory
    }
}
