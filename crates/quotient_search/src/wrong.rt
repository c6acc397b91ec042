//! Wrong quotients on the way of a search, one after another.
use crate::extend::{Extended, extend};
use crate::failing::lightest_failing;
use crate::quotient::HeapQuotient;
use crate::repair::{Tried, first_better};
use crate::scene::Scene;
use crate::state::State;
use crate::work::{Halt, Means, Work};
use octal_code::Code;
use std::alloc::Allocator;

/// A search for the quotient of a code's heaps, heap by heap, that stops at each quotient that is
/// wrong, before it repairs it.
#[derive(Drop)]
pub struct Guesses<'a, A: Allocator> {
    means: Means<'a, A>,
    scene: Scene<A>,
    state: State<A>,
    last: usize,
    heap: usize,
    is_wrong: bool,
}

impl<'a, A: Allocator + Copy> Guesses<'a, A> {
    /// Begins with no heap. The heaps are looked at up to `last`, with so much work in all.
    pub fn new(alloc: A, code: &'a Code, last: usize, work: u64) -> Result<Guesses<'a, A>, Halt> {
        let means = Means {
            alloc,
            code,
            work: Work::new(work),
        };
        let scene = Scene::plain(alloc)?;
        let mut guesses = Guesses {
            means,
            scene,
            state: State::empty(alloc),
            last,
            heap: 0,
            is_wrong: false,
        };
        guesses.begin()?;
        Ok(guesses)
    }

    fn begin(&mut self) -> Result<(), Halt> {
        self.state.quotient.begin(&self.scene)?;
        self.state
            .dead_contexts
            .begin(self.means.alloc, &self.state.quotient)
    }

    /// Goes on to the next wrong quotient, and answers its last heap, or `None` where the quotient of
    /// all heaps seems right.
    pub fn go_on(&mut self) -> Result<Option<usize>, Halt> {
        if self.is_wrong && !self.repair()? {
            return Ok(Some(self.heap));
        }
        for n in self.heap.saturating_add(1)..self.last.saturating_add(1) {
            self.heap = n;
            if !self.add(n)? {
                return Ok(Some(n));
            }
        }
        Ok(None)
    }

    /// Repairs a wrong quotient, and answers whether it is right then.
    fn repair(&mut self) -> Result<bool, Halt> {
        match first_better(&mut self.means, &mut self.state)? {
            Tried::Right => {
                self.is_wrong = false;
                Ok(true)
            }
            Tried::Better => Ok(false),
            Tried::Worse | Tried::Nothing => Err(Halt::Repairs),
        }
    }

    /// Adds the heap n, and answers whether the quotient is right.
    fn add(&mut self, n: usize) -> Result<bool, Halt> {
        match extend(&mut self.means, &self.scene, &mut self.state.quotient, n)? {
            Extended::Anew => self
                .state
                .dead_contexts
                .renew(&mut self.means, &self.state.quotient)?,
            Extended::Same => {
                self.state
                    .dead_contexts
                    .add(&mut self.means, &self.state.quotient, n)?
            }
            Extended::Twin => return Ok(true),
        }
        if self.state.dead_contexts.failed {
            self.fail()?;
        }
        Ok(!self.is_wrong)
    }

    /// Finds the lightest position at which the rule fails.
    fn fail(&mut self) -> Result<(), Halt> {
        let Some(failing) = lightest_failing(&mut self.means, &self.state.quotient)? else {
            return Err(Halt::Repairs);
        };
        self.state.failing = failing;
        self.is_wrong = true;
        Ok(())
    }
}

impl<A: Allocator> Guesses<'_, A> {
    /// The quotient on the way.
    pub fn quotient(&self) -> &HeapQuotient<A> {
        &self.state.quotient
    }
}
