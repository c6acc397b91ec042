//! Presentations that were found and accepted.
ghost use Rattle.std.specs.Prelude.{◌≡◌};
ghost use Rattle.presentation_search.specs.Found.{IsFound};

use allocation::{Memory, SmallAllocator};
use answers::InfiniteRefusal;
use presented_checker::{PresentedQuotient, check_presented};
use std::alloc::Global;
use std::marker::Model;

/// A presentation that was found, and what the check of its bytes keeps of it. It is made only of a text that the check
/// has accepted.
#[derive(Drop)]
pub struct FoundPresentation<A: SmallAllocator = Global> {
    text: Vec<u8, A>,
    quotient: PresentedQuotient<A>,
}

impl<A: SmallAllocator> Model for FoundPresentation<A> {
    ghost use Rattle.presentation_search.specs.Found.{Found, IsFound};

    ghost Value = { Found };

    ghost view = { λ f. record { text = f.text.items; quotient = f.quotient } };

    ghost invariant = { λ f. IsFound (record { text = f.text.items; quotient = f.quotient }) };
}

impl<A: SmallAllocator> FoundPresentation<A> {
    /// What the check keeps. It takes no memory.
    pub fn quotient(&self) -> &PresentedQuotient<A>
        ensures { result.now ≡ self.now.quotient }
    {
        &self.quotient
    }

    /// The text alone.
    pub fn into_text(self) -> Vec<u8, A>
        ensures text { result.items ≡ self.text }
        ensures found { IsFound self }
    {
        self.text
    }
}

/// Why none was found. Nothing is claimed of the quotient.
#[derive(Clone, Copy, Debug, PartialEq, Eq)]
pub enum Unpresented {
    /// The search came to its bound of work, of letters or of words.
    Work,
    /// What was found is larger than the check takes.
    Limit,
    /// What was found was refused by the check.
    Refused,
}

/// Has a text checked.
pub fn accepted<A: SmallAllocator + Copy>(
    alloc: A,
    text: Vec<u8, A>,
) -> Result<Result<FoundPresentation<A>, Unpresented>, Memory> {
    match check_presented(alloc, &text) {
        Ok(quotient) => Ok(Ok(FoundPresentation { text, quotient })),
        Err(InfiniteRefusal::Memory) => Err(Memory),
        Err(InfiniteRefusal::Limit) => Ok(Err(Unpresented::Limit)),
        Err(_) => Ok(Err(Unpresented::Refused)),
    }
}
