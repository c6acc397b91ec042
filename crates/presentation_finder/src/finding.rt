//! The search for an infinite quotient of a code, by all means.
ghost use Rattle.std.specs.Prelude.{◌≡◌, ◌≤◌, IfOk, None};

use crate::fitting::fitting;
use crate::learned::present_code;
use allocation::{Memory, SmallAllocator};
use infinite_finder::{Unfound, find_by_claims};
use octal_code::Code;
use presentation_search::FoundPresentation;

/// Looks for a presentation by the code alone, where no claim was right.
fn learned_instead<A: SmallAllocator + Copy>(
    alloc: A,
    code: &Code,
    heaps: usize,
    why: Unfound,
) -> Result<Result<FoundPresentation<A>, Unfound>, Memory>
    ensures code { IfOk result (λ found. IfOk found (λ f. f.quotient.said.code ≡ code.now)) }
    ensures part { IfOk result (λ found. IfOk found (λ f. f.quotient.said.period ≡ 0)) }
    ensures few { IfOk result (λ found. IfOk found (λ f. f.quotient.said.heaps ≤ heaps)) }
    ensures endless { IfOk result (λ found. IfOk found (λ f. f.quotient.order ≡ None)) }
{
    match present_code(alloc, code, heaps)? {
        Some(found) => Ok(Ok(found)),
        None => Ok(Err(why)),
    }
}

/// Looks for a part of the code's game whose quotient is infinite, and for the presentation of that quotient: by claims
/// with two heaps that run against each other; and if none is right, though some part seems to have no finite quotient,
/// by the relations of words alone. What it hands out was accepted by the check of its bytes, is of this code and infinite,
/// and is of a list of heaps that goes no further than `heaps`. Where nothing is found, nothing is claimed of the game. The
/// work is bounded.
pub fn find_presentation<A: SmallAllocator + Copy>(
    alloc: A,
    code: &Code,
    heaps: usize,
) -> Result<Result<FoundPresentation<A>, Unfound>, Memory>
    ensures code { IfOk result (λ found. IfOk found (λ f. f.quotient.said.code ≡ code.now)) }
    ensures part { IfOk result (λ found. IfOk found (λ f. f.quotient.said.period ≡ 0)) }
    ensures few { IfOk result (λ found. IfOk found (λ f. f.quotient.said.heaps ≤ heaps)) }
    ensures endless { IfOk result (λ found. IfOk found (λ f. f.quotient.order ≡ None)) }
{
    let found = match find_by_claims(alloc, code, heaps)? {
        Ok(found) => found,
        Err(Unfound::Finite { heaps }) => return Ok(Err(Unfound::Finite { heaps })),
        Err(why) => return learned_instead(alloc, code, heaps, why),
    };
    match fitting(code, heaps, found) {
        Some(found) => Ok(Ok(found)),
        None => Ok(Err(Unfound::Refused)),
    }
}
