//! Why there are no tables of a presentation.
ghost use Rattle.std.specs.Prelude.{◌≡◌};

use allocation::Memory;
use normal_forms::Exponents;
use std::alloc::{AllocError, AllocFailed};

/// Why there are no tables of a presentation.
#[derive(Clone, Copy, Debug, PartialEq, Eq)]
pub enum TablesFault {
    /// A relation, or a heap's word, has a letter that isn't one of the presentation's.
    Letters,
    /// Some option of this heap has a heap that is left out.
    Leaves(u64),
    /// This heap has no option, but another word than that of nothing.
    Idle(u64),
    /// The word of nothing is in the portion.
    Ended,
    /// Beside this word, the heap is in the portion, and so is an option of it.
    Moves(u64, Exponents),
    /// A test failed, which says nothing of the presentation.
    Undecided,
    /// There are more elements than are listed, or heaps without end.
    Limit,
    /// A growth was refused.
    Memory,
}

impl From<Memory> for TablesFault {
    ghost use Rattle.presented_tables.specs.declared.fault.TablesFault.TheVariants as fault;

    ghost from_gives = { λ _ e. e ≡ fault.Memory };

    fn from(_: Memory) -> TablesFault {
        TablesFault::Memory
    }
}

impl From<AllocError> for TablesFault {
    ghost use Rattle.presented_tables.specs.declared.fault.TablesFault.TheVariants as fault;

    ghost from_gives = { λ _ e. e ≡ fault.Memory };

    fn from(_: AllocError) -> TablesFault {
        TablesFault::Memory
    }
}

impl<T: Drop> From<AllocFailed<T>> for TablesFault {
    ghost use Rattle.presented_tables.specs.declared.fault.TablesFault.TheVariants as fault;

    ghost from_gives = { λ _ e. e ≡ fault.Memory };

    fn from(_: AllocFailed<T>) -> TablesFault {
        TablesFault::Memory
    }
}
