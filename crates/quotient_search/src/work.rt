//! Work, counted so that every search comes to an end, and the ways in which one ends early.
use allocation::Memory;
use octal_code::Code;
use std::alloc::{AllocError, AllocFailed, Allocator};

/// Why a search ended early.
#[derive(Clone, Copy, Debug, PartialEq, Eq)]
pub enum Halt {
    /// A growth was refused.
    Memory,
    /// The work that was allowed is done, or there is more to keep than is allowed.
    Work,
    /// No try of a repair comes to something better.
    Repairs,
    /// There are more elements than are allowed.
    TooLarge,
}

impl From<Memory> for Halt {
    fn from(_: Memory) -> Halt {
        Halt::Memory
    }
}

impl From<AllocError> for Halt {
    fn from(_: AllocError) -> Halt {
        Halt::Memory
    }
}

impl<T: Drop> From<AllocFailed<T>> for Halt {
    fn from(_: AllocFailed<T>) -> Halt {
        Halt::Memory
    }
}

/// The work that is left.
#[derive(Clone, Copy)]
pub struct Work {
    left: u64,
}

impl Work {
    /// So many steps, of about a nanosecond each.
    pub fn new(steps: u64) -> Work {
        Work { left: steps }
    }

    /// Spends so many steps, or ends the search.
    #[inline]
    pub fn spend(&mut self, steps: usize) -> Result<(), Halt> {
        let steps = steps as u64;
        if steps > self.left {
            self.left = 0;
            return Err(Halt::Work);
        }
        self.left -= steps;
        Ok(())
    }

    /// Holds back all but so much of what is left, for a part of the search.
    pub fn hold_back(&mut self, most: u64) -> Work {
        let left = self.left.saturating_sub(most);
        self.left -= left;
        Work { left }
    }

    /// Takes back what was held back.
    pub fn take_back(&mut self, held: Work) {
        self.left = self.left.saturating_add(held.left);
    }
}

/// What every part of a search works with: where memory comes from, the code, and the work that is
/// left.
#[derive(Drop)]
pub struct Means<'a, A: Allocator> {
    pub alloc: A,
    pub code: &'a Code,
    pub work: Work,
}
