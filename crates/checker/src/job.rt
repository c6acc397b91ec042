//! Checks in pieces.
ghost use Rattle.std.specs.Prelude.{◌≡◌, ◌≢◌, None};

use crate::stage::Stage;
use allocation::SmallAllocator;
use answers::{Certified, Refusal, true_answers};
use check_machine::{checks_end, verdicts_are_true};
use std::alloc::{Allocator, Global};
use std::marker::Model;

/// How far a job has come: it goes on, or its answer.
#[derive(Drop)]
pub enum Progress<'a, A: SmallAllocator = Global> {
    Going,
    Yes(&'a Certified<A>),
    No(&'a Refusal<A>),
}

/// A check in pieces, a unit a turn.
#[derive(Drop)]
pub struct Job<A: SmallAllocator = Global> {
    alloc: A,
    bytes: Vec<u8, A>,
    limit: u32,
    spent: u64,
    stage: Stage<A>,
}

impl<A: SmallAllocator> Model for Job<A> {
    ghost use Rattle.checker.specs.JobViews.{JobView};

    ghost Value = { JobView };

    ghost use Rattle.checker.specs.Stages.{HasCome, ending, phase_of};

    ghost view = { λ j.
        record { bytes = j.bytes.items; limit = j.limit; spent = j.spent; ended = ending j.stage } };

    ghost invariant = { λ j. HasCome j.bytes.items j.limit j.spent (phase_of j.stage) };
}

impl<A: SmallAllocator + Copy> Job<A> {
    /// A job that has spent nothing. It takes no memory.
    pub fn open(alloc: A, bytes: Vec<u8, A>, limit: u32) -> Job<A>
        ensures { result ≡ record { bytes = bytes.items; limit = limit; spent = 0; ended = None } }
    {
        Job {
            alloc,
            bytes,
            limit,
            spent: 0,
            stage: Stage::Reading,
        }
    }
}

impl<A: SmallAllocator> Job<A> {
    ghost use Rattle.checker.specs.Jobs.{Shows};
    ghost use Rattle.checker.specs.JobViews.{IsTruthful, IsDue, IsBounded};

    /// The bytes that it was opened with.
    pub fn bytes(&self) -> &[u8]
        ensures { result.now ≡ self.now.bytes }
    {
        &self.bytes
    }

    /// The limit that it was opened with.
    pub fn limit(&self) -> u32
        ensures { result ≡ self.now.limit }
    {
        self.limit
    }

    /// The units spent so far. While it goes on they are fewer than the check costs. Once it has
    /// ended they are all that the check costs, and its answer is the verdict of its bytes and
    /// limit, unless memory was refused. By the certificate that the bytes spell they are bounded.
    pub fn spent(&self) -> u64
        ensures value { result ≡ self.now.spent }
        ensures due { IsDue self.now }
        ensures bounded { IsBounded self.now }
    {
        checks_end();
        self.spent
    }

    /// Makes it as newly opened, with the same bytes and limit. It takes no memory.
    pub fn again(&mut self)
        ensures { self.new ≡ record self.old { spent = 0; ended = None } }
    {
        self.stage.set(Stage::Reading);
        self.spent = 0;
    }

    /// Where it stands.
    pub fn progress(&self) -> Progress<'_, A>
        ensures shown { Shows self.now result }
        ensures truthful { IsTruthful self.now }
    {
        checks_end();
        verdicts_are_true();
        true_answers();
        match &self.stage {
            Stage::Ended(Ok(certified)) => Progress::Yes(certified),
            Stage::Ended(Err(refusal)) => Progress::No(refusal),
            _ => Progress::Going,
        }
    }
}

impl<A: SmallAllocator + Copy> Job<A> {
    ghost use Rattle.std.specs.Borrow.{sem};
    ghost use Rattle.std.specs.Io.BufRead.{Rests};
    ghost use Rattle.checker.specs.contracts.job.Job.{the_row};
    ghost use Rattle.checker.specs.Jobs.{IsTrueShow, Shows};
    ghost use Rattle.checker.specs.JobViews.{HasAdvanced};

    /// Spends units until there are none or the job ends.
    fn advance(&mut self, units: u64)
        ensures { HasAdvanced units self.old self.new }
    {
        checks_end();
        let mut left = units;
        self.stage
            .advance(self.alloc, &self.bytes, self.limit, &mut left);
        self.spent += units - left;
    }

    /// Spends units until there are none or the job ends, and shows where it stands then. An ended
    /// job stays as it is.
    pub fn work(&mut self, units: u64) -> Progress<'_, A>
        ensures* after { sem 𝓛
            (Rests (the_row A.row A.Allocator) self.entry (λ new. HasAdvanced units self.old new
            × Shows new result)) }
        ensures truthful { IsTrueShow self.old result }
        ensures same { self.old.ended ≢ None → Shows self.old result }
    {
        self.advance(units);
        self.progress()
    }
}
