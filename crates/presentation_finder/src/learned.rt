//! Presentations of infinite quotients from codes alone.
ghost use Rattle.std.specs.Prelude.{◌≡◌, ◌≤◌, IfOk, IfSome, None};

use crate::fitting::fitting;
use allocation::{Memory, SmallAllocator};
use octal_code::Code;
use presentation_learner::{Learner, Scope};
use presentation_search::{FoundPresentation, Unpresented, accepted};
use quotient_search::Halt;

/// How many attempts there are at a part, each of which looks further.
const ATTEMPTS: u16 = 3;

/// The work that all parts that are reached may take, and all parts of all heaps.
const LEARNING_WORK: u64 = 40_000_000_000;

/// Why nothing infinite was found at a part.
#[derive(Clone, Copy, PartialEq, Eq)]
enum Unlearned {
    /// Its quotient is finite, or seems to be.
    Finite,
    /// What was found was refused by the check.
    Refused,
    /// The search or the check came to a bound.
    Bound,
}

/// Has a text checked that was learned.
fn judged<A: SmallAllocator + Copy>(
    alloc: A,
    text: Vec<u8, A>,
) -> Result<Result<FoundPresentation<A>, Unlearned>, Memory> {
    let found = match accepted(alloc, text)? {
        Ok(found) => found,
        Err(Unpresented::Refused) => return Ok(Err(Unlearned::Refused)),
        Err(_) => return Ok(Err(Unlearned::Bound)),
    };
    if found.quotient().order().is_some() {
        return Ok(Err(Unlearned::Finite));
    }
    Ok(Ok(found))
}

/// Looks for a presentation of a part at one attempt.
fn attempted<A: SmallAllocator + Copy>(
    alloc: A,
    learner: &mut Learner<A>,
    last: usize,
    scope: Scope,
    attempt: u16,
) -> Result<Result<FoundPresentation<A>, Unlearned>, Memory> {
    match learner.text_of_part(last, scope, attempt) {
        Ok(Some(text)) => judged(alloc, text),
        Ok(None) => Ok(Err(Unlearned::Finite)),
        Err(Halt::Memory) => Err(Memory),
        Err(Halt::Work) => Ok(Err(Unlearned::Bound)),
        Err(_) => Ok(Err(Unlearned::Refused)),
    }
}

/// Looks for a presentation of a part.
fn learned<A: SmallAllocator + Copy>(
    alloc: A,
    learner: &mut Learner<A>,
    last: usize,
    scope: Scope,
) -> Result<Result<FoundPresentation<A>, Unlearned>, Memory> {
    for attempt in 0..ATTEMPTS {
        match attempted(alloc, learner, last, scope, attempt)? {
            Ok(found) => return Ok(Ok(found)),
            Err(Unlearned::Refused) => {}
            Err(why) => return Ok(Err(why)),
        }
    }
    Ok(Err(Unlearned::Refused))
}

/// Looks for a presentation of the heaps that plays of a heap lead to; and then of all heaps up to it, as long as this
/// is open. It is closed where it fails, since later lists of all heaps have these.
fn found_at<A: SmallAllocator + Copy>(
    alloc: A,
    reached: &mut Learner<A>,
    all: &mut Learner<A>,
    last: usize,
    is_open: &mut bool,
) -> Result<Option<FoundPresentation<A>>, Memory> {
    if let Ok(found) = learned(alloc, reached, last, Scope::Reached)? {
        return Ok(Some(found));
    }
    if !*is_open {
        return Ok(None);
    }
    match learned(alloc, all, last, Scope::All)? {
        Ok(found) => Ok(Some(found)),
        Err(why) => {
            *is_open = why == Unlearned::Finite;
            Ok(None)
        }
    }
}

/// Looks for the first heap up to `heaps` at which a part of a game has an infinite quotient, by the code alone, and
/// for the presentation of that quotient. What it hands out was accepted by the check of its bytes, and is of this code
/// and of a list of heaps, which is no longer. If it finds none, nothing is claimed of the game. The work is bounded.
pub fn present_code<A: SmallAllocator + Copy>(
    alloc: A,
    code: &Code,
    heaps: usize,
) -> Result<Option<FoundPresentation<A>>, Memory>
    ensures endless { IfOk result (λ found. IfSome found (λ f. f.quotient.order ≡ None)) }
    ensures code { IfOk result (λ found. IfSome found (λ f. f.quotient.said.code ≡ code.now)) }
    ensures part { IfOk result (λ found. IfSome found (λ f. f.quotient.said.period ≡ 0)) }
    ensures few { IfOk result (λ found. IfSome found (λ f. f.quotient.said.heaps ≤ heaps)) }
{
    let mut reached = Learner::new(alloc, code, LEARNING_WORK);
    let mut all = Learner::new(alloc, code, LEARNING_WORK);
    let mut is_open = true;
    for before in 0..heaps {
        let last = before.saturating_add(1);
        if let Some(found) = found_at(alloc, &mut reached, &mut all, last, &mut is_open)? {
            return Ok(fitting(code, heaps, found));
        }
    }
    Ok(None)
}
