//! Why a table is not described.
ghost use Rattle.std.specs.Prelude.{◌≡◌};
ghost use Rattle.relations.specs.Met.{bound_of};

use allocation::Memory;
use std::alloc::{AllocError, AllocFailed};

/// A bound of the search for relations.
#[derive(Clone, Copy, Debug, PartialEq, Eq)]
pub enum Bound {
    /// More than `LETTERS` generators were found.
    Letters,
    /// A relation that was found has an exponent above `LARGEST_EXPONENT`, or a word came to one above
    /// 255 before relations were found.
    Exponents,
    /// The relations that were found weren't shown to present the table within the bounds.
    Unshown,
}

/// That a search for relations met a bound. It is made by such a search alone.
#[derive(Debug, Drop)]
pub struct MetBound {
    bound: Bound,
}

impl MetBound {
    /// The bound that was met.
    pub fn bound(&self) -> Bound
        ensures { result ≡ bound_of self.now }
    {
        self.bound
    }
}

/// Why a table is not described.
#[derive(Debug, Drop)]
pub enum Undescribed {
    /// The search met a bound.
    Bound(MetBound),
    /// A growth was refused.
    Memory,
}

/// The search met this bound.
pub(crate) fn met(bound: Bound) -> Undescribed {
    Undescribed::Bound(MetBound { bound })
}

impl From<Memory> for Undescribed {
    ghost use Rattle.std.specs.Prelude.{◌≡◌};
    ghost use Rattle.relations.specs.declared.fault.Undescribed.TheVariants.{Memory as OutOfMemory};

    ghost from_gives = { λ _ fault. fault ≡ OutOfMemory };

    fn from(_: Memory) -> Undescribed {
        Undescribed::Memory
    }
}

impl From<AllocError> for Undescribed {
    ghost use Rattle.std.specs.Prelude.{◌≡◌};
    ghost use Rattle.relations.specs.declared.fault.Undescribed.TheVariants.{Memory as OutOfMemory};

    ghost from_gives = { λ _ fault. fault ≡ OutOfMemory };

    fn from(_: AllocError) -> Undescribed {
        Undescribed::Memory
    }
}

impl<T: Drop> From<AllocFailed<T>> for Undescribed {
    ghost use Rattle.std.specs.Prelude.{◌≡◌};
    ghost use Rattle.relations.specs.declared.fault.Undescribed.TheVariants.{Memory as OutOfMemory};

    ghost from_gives = { λ _ fault. fault ≡ OutOfMemory };

    fn from(_: AllocFailed<T>) -> Undescribed {
        Undescribed::Memory
    }
}
