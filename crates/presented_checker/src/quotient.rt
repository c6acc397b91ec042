//! Presentations that were checked.
ghost use Rattle.std.specs.Prelude.{◌≡◌, length};
ghost use Rattle.presented_checker.specs.Refused.{IsRight};

use octal_code::Code;
use presented_tables::Presented;
use std::alloc::{Allocator, Global};
use std::marker::Model;

/// A presentation that a check has accepted: it is the misère quotient of its heaps. It is made only of one of which
/// that was proved.
#[derive(Drop)]
pub struct PresentedQuotient<A: Allocator = Global> {
    said: Presented<A>,
    order: Option<usize>,
}

impl<A: Allocator> Model for PresentedQuotient<A> {
    ghost use Rattle.presented_checker.specs.Refused.{Kept, IsRight};

    ghost Value = { Kept };

    ghost view = { λ q. record { said = q.said; order = q.order } };

    ghost invariant = { λ q. IsRight (record { said = q.said; order = q.order }) };
}

impl<A: Allocator> PresentedQuotient<A> {
    /// Keeps a presentation that is right, and how many elements were listed, if they are finitely many.
    pub(crate) fn new(said: Presented<A>, order: Option<usize>) -> PresentedQuotient<A>
        requires { IsRight (record { said = said; order = order }) }
        ensures { result ≡ record { said = said; order = order } }
    {
        PresentedQuotient { said, order }
    }

    /// What it says. It takes no memory.
    pub fn said(&self) -> &Presented<A>
        ensures value { result.now ≡ self.now.said }
        ensures right { IsRight self.now }
    {
        &self.said
    }

    /// The code of the game. It takes no memory.
    pub fn code(&self) -> &Code
        ensures { result.now ≡ self.now.said.code }
    {
        &self.said.code
    }

    /// How many heaps have words of their own. It takes no memory.
    pub fn heaps(&self) -> u16
        ensures { result ≡ self.now.said.heaps }
    {
        self.said.heaps
    }

    /// After how many heaps words repeat, or 0 if no heaps count but those that have words of their own. It takes no memory.
    pub fn period(&self) -> u16
        ensures { result ≡ self.now.said.period }
    {
        self.said.period
    }

    /// How many relations there are. It takes no memory.
    pub fn relations(&self) -> usize
        ensures { result ≡ length self.now.said.relations }
    {
        self.said.basis.rules().len()
    }

    /// How many elements the quotient has, or none if it is infinite. It takes no memory.
    pub fn order(&self) -> Option<usize>
        ensures { result ≡ self.now.order }
    {
        self.order
    }
}
