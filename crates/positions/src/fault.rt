//! Why a text is no position.
ghost use Rattle.std.specs.Prelude.{◌≡◌};
ghost use Rattle.positions.specs.Text.{position_fault_number};

use allocation::Memory;

/// Why a text gave no position.
#[derive(Clone, Copy, Debug, PartialEq, Eq)]
pub enum PositionFault {
    /// The bytes aren't the text of a position.
    Text,
    /// There are more than 64 sizes.
    TooMany,
    /// There are no more than 64 sizes, and one is above 10^18.
    TooLarge,
    /// A growth was refused.
    Memory,
}

impl PositionFault {
    /// The number under which the fault is printed.
    pub fn number(self) -> u8
        ensures { result ≡ position_fault_number self }
    {
        match self {
            PositionFault::Text => 1,
            PositionFault::TooMany => 2,
            PositionFault::TooLarge => 3,
            PositionFault::Memory => 9,
        }
    }
}

impl From<Memory> for PositionFault {
    ghost use Rattle.positions.specs.declared.fault.PositionFault.{PositionFault};

    ghost from_gives = { λ _ fault. fault ≡ PositionFault.Memory };

    fn from(_: Memory) -> PositionFault {
        PositionFault::Memory
    }
}
