//! The stages of a check, in a row.
ghost use Rattle.std.specs.Prelude.{◌≡◌, ◌*◌, ◌+◌, ◌-◌, ◌<◌, ◌≤◌, ℕ, List, Some, true, false};
ghost use Rattle.answers.specs.ByteVerdicts.{answer_of};

use crate::any_paired::AnyPaired;
use crate::keys::Keys;
use crate::laws::Laws;
use crate::periods::Periods;
use crate::products::Products;
use crate::reading;
use crate::separating::Separating;
use allocation::SmallAllocator;
use answers::{Certified, Refusal};
use std::alloc::Global;

/// A stage of a check, with what it holds.
#[derive(Drop)]
pub enum Stage<A: SmallAllocator = Global> {
    Reading,
    Laws(Laws<A>),
    Keys(Keys<A>),
    Products(Products<A>),
    Periods(Periods<A>),
    Separating(Separating<A>),
    Pairs(AnyPaired<A>),
    Ended(Result<Certified<A>, Refusal<A>>),
}

impl<A: SmallAllocator> Stage<A> {
    /// Makes it this stage. What it was is dropped here, once for all callers.
    pub fn set(&mut self, stage: Stage<A>)
        ensures { self.new ≡ stage }
    {
        drop(std::mem::replace(self, stage));
    }
}

impl<A: SmallAllocator + Copy> Stage<A> {
    ghost use Rattle.checker.specs.Stages.{HasCome, Comes, Stays, phase_of, has_ended, ending};

    /// Whether the answer stands.
    pub fn has_ended(&self) -> bool
        ensures { result ≡ has_ended self.now }
    {
        matches!(self, Stage::Ended(_))
    }

    /// The answer, once it stands.
    pub fn answer(self) -> Result<Certified<A>, Refusal<A>>
        requires { has_ended self ≡ true }
        ensures { ending self ≡ Some (answer_of result) }
    {
        match self {
            Stage::Ended(answer) => answer,
            _ => unreachable!(),
        }
    }

    /// Takes turns in place, while the stage surely goes on and there are units.
    fn go_on(&mut self, left: &mut u64)
        ensures { Stays (phase_of self.old) left.old left.new (phase_of self.new) }
    {
        match self {
            Stage::Laws(laws) => laws.go_on(left),
            Stage::Keys(keys) => keys.go_on(left),
            Stage::Products(products) => products.go_on(left),
            Stage::Separating(separating) => separating.go_on(left),
            Stage::Pairs(paired) => paired.go_on(left),
            _ => {}
        }
    }

    /// Spends units until there are none or the answer stands. A stage that has ended stays as it
    /// is. It is moved only for what may end it.
    pub fn advance(&mut self, alloc: A, bytes: &[u8], limit: u32, left: &mut u64)
        ensures come { (spent : ℕ) → HasCome bytes.now limit spent (phase_of self.old)
            → HasCome bytes.now limit (spent + (left.old - left.new)) (phase_of self.new) }
        ensures spends { left.new ≤ left.old }
        ensures whole { 0 < left.new → has_ended self.new ≡ true }
        ensures ended { has_ended self.old ≡ true → (self.new ≡ self.old) × (left.new ≡ left.old) }
        ensures idle { left.old ≡ 0 → self.new ≡ self.old }
    {
        'stages: while *left > 0 && !self.has_ended() {
            self.go_on(left);
            if *left > 0 {
                let stage = std::mem::replace(self, Stage::Reading);
                self.set(stage.work(alloc, bytes, limit, left));
            }
        }
    }

    /// Spends units, a last turn of the stage at least, and no more than the stage takes.
    fn work(self, alloc: A, bytes: &[u8], limit: u32, left: &mut u64) -> Stage<A>
        ensures { has_ended self ≡ false
            → Comes bytes.now limit (phase_of self) left.old left.new (phase_of result) }
    {
        if *left == 0 {
            return self;
        }
        match self {
            Stage::Reading => {
                *left -= 1;
                reading::turn(alloc, bytes)
            }
            Stage::Laws(laws) => laws.work(left),
            Stage::Keys(keys) => {
                *left -= 1;
                keys.turn()
            }
            Stage::Products(products) => {
                *left -= 1;
                products.turn()
            }
            Stage::Periods(periods) => periods.work(alloc, left),
            Stage::Separating(separating) => {
                *left -= 1;
                separating.turn(alloc)
            }
            Stage::Pairs(paired) => match paired.work(alloc, limit, left) {
                Ok(paired) => Stage::Pairs(paired),
                Err(answer) => Stage::Ended(answer),
            },
            Stage::Ended(answer) => Stage::Ended(answer),
        }
    }
}
