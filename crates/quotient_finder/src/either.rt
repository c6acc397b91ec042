//! Either proposer, so that a list can hold both.
ghost use Rattle.quotient_finder.specs.ProposedHistories.{history_of};

use crate::Proposer;
use crate::refiner::Refiner;
use crate::sampler::Sampler;
use allocation::Memory;
use answers::Refusal;
use guesses::Reason;
use octal_code::Code;

/// A refiner or a sampler.
#[derive(Drop)]
pub enum AnyProposer {
    Refiner(Refiner),
    Sampler(Sampler),
}

impl AnyProposer {
    /// Why its drafts came to nothing, once none is left. Of a sampler nothing more is known.
    pub fn reason(&self) -> Reason {
        match self {
            AnyProposer::Refiner(refiner) => refiner.reason(),
            AnyProposer::Sampler(_) => Reason::Refused,
        }
    }
}

impl Proposer for AnyProposer {
    ghost history = { history_of };

    fn propose(&mut self, code: &Code) -> Result<Option<Vec<u8>>, Memory> {
        match self {
            AnyProposer::Refiner(refiner) => refiner.propose(code),
            AnyProposer::Sampler(sampler) => sampler.propose(code),
        }
    }

    fn learn(&mut self, refusal: &Refusal) -> Result<(), Memory> {
        match self {
            AnyProposer::Refiner(refiner) => refiner.learn(refusal),
            AnyProposer::Sampler(sampler) => sampler.learn(refusal),
        }
    }
}
