//! Whole games that were checked.
ghost use Rattle.std.specs.Prelude.{◌≡◌};
ghost use Rattle.dominance_text.specs.Said.{IsInRanges};
ghost use Rattle.whole_checker.specs.Solved.{IsSolved};

use dominance_text::DominanceText;
use octal_code::Code;
use std::alloc::{Allocator, Global};
use std::marker::Model;

/// A whole game whose text a check has accepted: the outcome of each of its positions is known. It is made
/// only of a text of which that was proved.
#[derive(Drop)]
pub struct WholeGame<A: Allocator = Global> {
    text: DominanceText<A>,
}

impl<A: Allocator> Model for WholeGame<A> {
    ghost use Rattle.dominance_text.specs.Said.{DominanceSaid, IsInRanges};
    ghost use Rattle.whole_checker.specs.Solved.{IsSolved};

    ghost Value = { DominanceSaid };

    ghost view = { λ s. s.text };

    ghost invariant = { λ s. IsInRanges s.text × IsSolved s.text };
}

impl<A: Allocator> WholeGame<A> {
    /// Keeps a text that is right.
    pub(crate) fn new(text: DominanceText<A>) -> WholeGame<A>
        requires ranges { IsInRanges text }
        requires solved { IsSolved text }
        ensures { result ≡ text }
    {
        WholeGame { text }
    }

    /// What the text says. It takes no memory.
    pub fn text(&self) -> &DominanceText<A>
        ensures same { result.now ≡ self.now }
        ensures ranges { IsInRanges self.now }
        ensures solved { IsSolved self.now }
    {
        &self.text
    }

    /// The code of the game. It takes no memory.
    pub fn code(&self) -> &Code
        ensures { result.now ≡ self.now.code }
    {
        &self.text.code
    }
}
