//! Why nothing is told.
ghost use Rattle.std.specs.Prelude.{◌≡◌};
ghost use Rattle.solve_library.specs.Found.{untold_number};

use answers::Refusal;
use descriptions::{PresentBound, Undescribed};

/// The search was given up.
pub(crate) const GAVE_UP: u32 = 13;

/// Why nothing is told.
#[derive(Drop)]
pub(crate) enum Untold {
    /// The search for relations met a bound, or a growth was refused.
    NotDescribed(Undescribed),
    /// The relations are above a bound of `present`.
    Beyond(PresentBound),
    /// A number is out of its range, or there is no such output or form.
    NotInRange,
    /// The bytes are refused.
    Refused(Refusal),
    /// Nothing is opened.
    NotOpen,
    /// The text is no code's.
    NotACode,
    /// No certificate was found.
    GaveUp,
    /// A growth was refused.
    Memory,
}

impl Untold {
    /// The status. No other code makes a 16.
    pub(crate) fn number(&self) -> u32
        ensures { result ≡ untold_number self.now }
    {
        match self {
            Untold::NotDescribed(Undescribed::Memory) | Untold::Memory => 9,
            Untold::NotDescribed(Undescribed::Bound(_)) | Untold::Beyond(_) => 16,
            Untold::NotInRange => 15,
            Untold::Refused(refusal) => refusal.number() as u32,
            Untold::NotOpen => 17,
            Untold::NotACode => 12,
            Untold::GaveUp => GAVE_UP,
        }
    }
}
