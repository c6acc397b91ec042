//! Why nothing was found.
ghost use Rattle.std.specs.Prelude.{◌≡◌};
ghost use Rattle.quotient_finder.specs.Numbers.{gave_up_number};
ghost use Rattle.quotient_finder.specs.declared.gave_up.GaveUp.TheVariants.{Memory as OutOfMemory};

use allocation::Memory;

/// Why a search found nothing.
#[derive(Clone, Copy, Debug, PartialEq, Eq)]
pub enum GaveUp {
    /// All rounds were spent.
    Rounds,
    /// There is no proposer, or none gave a draft in a round.
    Empty,
    /// A proposer or a check answered that memory was wanting.
    Memory,
}

impl GaveUp {
    /// The number under which it is printed. It takes no memory.
    pub fn number(self) -> u8
        ensures { result ≡ gave_up_number self }
    {
        match self {
            GaveUp::Rounds => 1,
            GaveUp::Empty => 2,
            GaveUp::Memory => 9,
        }
    }
}

impl From<Memory> for GaveUp {
    ghost from_gives = { λ _ e. e ≡ OutOfMemory };

    fn from(_: Memory) -> GaveUp {
        GaveUp::Memory
    }
}
