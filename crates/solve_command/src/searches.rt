//! The searches for a certificate, of which nothing is known but what they answer.
ghost use Rattle.std.specs.Prelude.{◌≡◌, ◌≢◌, IfOk, IfErr, length};
ghost use Rattle.quotient_finder.specs.Finding.{IsFound};
ghost use Rattle.solve_command.specs.Searches.{Calls};
ghost use Rattle.solve_command.specs.Solved.{HasAsked};

use answers::Certified;
use octal_code::Code;
use quotient_finder::{AnyProposer, GaveUp, Limits, Reason, Refiner, Sampler, ask_rounds};
use requests::SolveBounds;
use std::alloc::Global;

/// The largest heap of a sample.
const SAMPLED: usize = 64;

/// What a search came to, and why, where no draft was left.
#[derive(Drop)]
pub struct Searched {
    pub came: Result<Certified, GaveUp>,
    pub reason: Reason,
}

/// What searches for certificates. What it came to is said by `has_asked`. A proof over any search has
/// nothing of it but what the two calls answered, so what says that a search was given up has made it.
pub trait Searches {
    /// It searched for a certificate of this code and kind, over so many proposers, with this limit
    /// of each check and in at most so many rounds, and came to this.
    ghost has_asked: { Calls };

    /// Searches for a full certificate of the code, over two proposers, which look at so many heaps.
    fn whole(&self, alloc: Global, code: &Code, heaps: usize, bounds: SolveBounds) -> Searched
        ensures found { IfOk result.came (IsFound code.now 0) }
        ensures asked { has_asked code.now 0 2 bounds.limit bounds.rounds result.came }
        ensures no_round { bounds.rounds ≡ 0 → IfErr result.came (λ why. why ≢ GaveUp.Empty) };

    /// Searches for the certificate of the heaps 1 to `last`, over one proposer.
    fn part(&self, alloc: Global, code: &Code, last: u32, bounds: SolveBounds) -> Searched
        ensures found { IfOk result.came (IsFound code.now last) }
        ensures asked { has_asked code.now last 1 bounds.limit bounds.rounds result.came }
        ensures no_round { bounds.rounds ≡ 0 → IfErr result.came (λ why. why ≢ GaveUp.Empty) };
}

/// Asks these proposers for a certificate of the code and kind. The first one knows the reason.
fn ask(
    alloc: Global,
    code: &Code,
    kind: u64,
    proposers: &mut [AnyProposer],
    bounds: SolveBounds,
) -> Searched
    ensures found { IfOk result.came (IsFound code.now kind) }
    ensures asked { HasAsked code.now kind (length proposers.old) bounds.limit bounds.rounds
        result.came }
    ensures no_round { bounds.rounds ≡ 0 → IfErr result.came (λ why. why ≢ GaveUp.Empty) }
{
    let limits = Limits {
        rounds: bounds.rounds,
        members: bounds.limit,
    };
    let came = ask_rounds(alloc, code, kind, proposers, limits);
    let reason = match proposers.first() {
        Some(first) => first.reason(),
        None => Reason::Refused,
    };
    Searched { came, reason }
}

/// The search over a refiner, which is asked first, and for the whole game a sampler, which takes
/// longer.
#[derive(Clone, Copy)]
pub struct Proposing;

impl Searches for Proposing {
    ghost has_asked = { HasAsked };

    fn whole(&self, alloc: Global, code: &Code, heaps: usize, bounds: SolveBounds) -> Searched {
        let order = bounds.order as usize;
        let refiner = Refiner::new(alloc, heaps, order);
        let sampler = Sampler::new(alloc, heaps.min(SAMPLED), order);
        let mut proposers = [AnyProposer::Refiner(refiner), AnyProposer::Sampler(sampler)];
        ask(alloc, code, 0, &mut proposers, bounds)
    }

    fn part(&self, alloc: Global, code: &Code, last: u32, bounds: SolveBounds) -> Searched {
        let refiner = Refiner::of_part(alloc, last as usize, bounds.order as usize);
        let mut proposers = [AnyProposer::Refiner(refiner)];
        ask(alloc, code, last as u64, &mut proposers, bounds)
    }
}
