//! The stages over the pairs of heaps, at any width.
ghost use Rattle.std.specs.Prelude.{◌≡◌, ℕ, List};
ghost use Rattle.misere_theory.specs.Certificates.{Canonical};
ghost use Rattle.check_machine.specs.Turns.Phase.{Heaps as AtHeaps};
ghost use Rattle.checker.specs.Stages.{Comes, Stays, arrived_any, phase_of_any};

use crate::heaps::Heaps;
use crate::lawful_certificate::LawfulCertificate;
use crate::paired::{Ending, Paired};
use allocation::SmallAllocator;
use std::alloc::Global;

/// A stage over pairs, with sets as wide as the order needs. No other file lists the widths.
#[derive(Drop)]
pub enum AnyPaired<A: SmallAllocator = Global> {
    One(Paired<1, A>),
    Four(Paired<4, A>),
    Eight(Paired<8, A>),
    Sixteen(Paired<16, A>),
    SixtyFour(Paired<64, A>),
}

impl<A: SmallAllocator + Copy> AnyPaired<A> {
    /// The first stage over pairs.
    pub fn new(alloc: A, certificate: LawfulCertificate<A>) -> AnyPaired<A>
        requires { Canonical certificate }
        ensures { phase_of_any result ≡ AtHeaps (record { certificate = certificate; spent = 0 }) }
    {
        let order = certificate.order();
        if order <= 64 {
            AnyPaired::One(Paired::Heaps(Heaps::new(alloc, certificate)))
        } else if order <= 256 {
            AnyPaired::Four(Paired::Heaps(Heaps::new(alloc, certificate)))
        } else if order <= 512 {
            AnyPaired::Eight(Paired::Heaps(Heaps::new(alloc, certificate)))
        } else if order <= 1024 {
            AnyPaired::Sixteen(Paired::Heaps(Heaps::new(alloc, certificate)))
        } else {
            AnyPaired::SixtyFour(Paired::Heaps(Heaps::new(alloc, certificate)))
        }
    }

    /// Takes turns in place, while the stage surely goes on and there are units.
    pub fn go_on(&mut self, left: &mut u64)
        ensures { Stays (phase_of_any self.old) left.old left.new (phase_of_any self.new) }
    {
        match self {
            AnyPaired::One(paired) => paired.go_on(left),
            AnyPaired::Four(paired) => paired.go_on(left),
            AnyPaired::Eight(paired) => paired.go_on(left),
            AnyPaired::Sixteen(paired) => paired.go_on(left),
            AnyPaired::SixtyFour(paired) => paired.go_on(left),
        }
    }

    /// Spends units until there are none or the stage ends; an `Err` has the answer.
    pub fn work(self, alloc: A, limit: u32, left: &mut u64) -> Result<Self, Ending<A>>
        ensures { (bytes : List ℕ)
            → Comes bytes limit (phase_of_any self) left.old left.new (arrived_any result) }
    {
        match self {
            AnyPaired::One(paired) => Ok(AnyPaired::One(paired.work(alloc, limit, left)?)),
            AnyPaired::Four(paired) => Ok(AnyPaired::Four(paired.work(alloc, limit, left)?)),
            AnyPaired::Eight(paired) => Ok(AnyPaired::Eight(paired.work(alloc, limit, left)?)),
            AnyPaired::Sixteen(paired) => Ok(AnyPaired::Sixteen(paired.work(alloc, limit, left)?)),
            AnyPaired::SixtyFour(paired) => Ok(AnyPaired::SixtyFour(paired.work(
                alloc, limit, left,
            )?)),
        }
    }
}
