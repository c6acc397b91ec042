//! What a client is told by a desk.
ghost use Rattle.std.specs.Prelude.{◌≡◌};
ghost use Rattle.desk.specs.Replies.{step_fault_number, step_fault_name};

use allocation::SmallAllocator;
use checker::{Certified, Refusal};
use player::{Answer, Outcome};
use std::alloc::Global;

/// Why a step wasn't done. It leaves the desk as it was.
#[derive(Clone, Copy, Debug, PartialEq, Eq)]
pub enum StepFault {
    /// The client has four open jobs.
    Full,
    /// The client has no open job of this number.
    NoJob,
    /// The job hasn't ended with yes.
    NotCertified,
    /// The job's certificate is partial, and doesn't speak of the position.
    Beyond,
    /// The growth that a new job needs was refused.
    Memory,
}

impl StepFault {
    /// The number under which the fault is printed: 20, 21, 22, 23, or 9 for want of memory.
    pub fn number(self) -> u8
        ensures { result ≡ step_fault_number self }
    {
        match self {
            StepFault::Full => 20,
            StepFault::NoJob => 21,
            StepFault::NotCertified => 22,
            StepFault::Beyond => 23,
            StepFault::Memory => 9,
        }
    }

    /// The name under which it is printed.
    pub fn name(self) -> &'static str
        ensures { result.now ≡ step_fault_name self }
    {
        match self {
            StepFault::Full => "Full",
            StepFault::NoJob => "NoJob",
            StepFault::NotCertified => "NotCertified",
            StepFault::Beyond => "Beyond",
            StepFault::Memory => "Memory",
        }
    }
}

/// What a client is told.
#[derive(Drop)]
pub enum Reply<'a, A: SmallAllocator = Global> {
    /// The number of the new job.
    Opened(u8),
    /// The job goes on.
    Going,
    /// The job has ended: its bytes are accepted.
    Yes(&'a Certified<A>),
    /// The job has ended: its bytes aren't accepted, or memory was refused.
    No(&'a Refusal<A>),
    Dropped,
    Outcome(Outcome),
    Answer(Answer),
    Refused(StepFault),
}
