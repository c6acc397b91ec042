//! The stages over the pairs of heaps, at one width.
ghost use Rattle.std.specs.Prelude.{◌≤◌, ℕ, List};
ghost use Rattle.checker.specs.Stages.{Comes, Stays, arrived, phase_of_paired};

use crate::closing::Closing;
use crate::elements::Elements;
use crate::heaps::Heaps;
use allocation::SmallAllocator;
use answers::{Certified, Refusal};
use std::alloc::Global;

/// A stage over pairs whose sets have so many lanes.
#[derive(Drop)]
pub enum Paired<const LANES: usize, A: SmallAllocator = Global> {
    Heaps(Heaps<LANES, A>),
    Elements(Elements<LANES, A>),
    Closing(Closing<LANES, A>),
}

/// How a check ends: its answer.
pub type Ending<A> = Result<Certified<A>, Refusal<A>>;

impl<const LANES: usize, A: SmallAllocator + Copy> Paired<LANES, A> {
    /// Takes turns in place, while the stage surely goes on and there are units.
    pub fn go_on(&mut self, left: &mut u64)
        requires { LANES ≤ 64 }
        ensures { Stays (phase_of_paired self.old) left.old left.new (phase_of_paired self.new) }
    {
        match self {
            Paired::Heaps(heaps) => heaps.go_on(left),
            Paired::Elements(elements) => elements.go_on(left),
            Paired::Closing(_) => {}
        }
    }

    /// Spends units until there are none or the stage ends; an `Err` has the answer.
    pub fn work(self, alloc: A, limit: u32, left: &mut u64) -> Result<Self, Ending<A>>
        requires { LANES ≤ 64 }
        ensures { (bytes : List ℕ)
            → Comes bytes limit (phase_of_paired self) left.old left.new (arrived result) }
    {
        if *left == 0 {
            return Ok(self);
        }
        match self {
            Paired::Heaps(heaps) => heaps.work(alloc, left),
            Paired::Elements(elements) => {
                *left -= 1;
                elements.turn(alloc, limit)
            }
            Paired::Closing(closing) => closing.work(left),
        }
    }
}
