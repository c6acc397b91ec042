//! Presentations of certified quotients.
ghost use Rattle.std.specs.Prelude.{◌≡◌, IfOk, length};

use allocation::{Memory, SmallAllocator};
use answers::Certified;
use presentation_search::{FoundPresentation, Unpresented, of_certified, present_claim};
use quotient_search::Halt;
use std::alloc::Allocator;

/// Looks for the presentation of a certified quotient. What it hands out was accepted by the check of its bytes, and is
/// of the same code and of the same heaps, so of the same quotient. The work is bounded.
pub fn present_certified<A: SmallAllocator + Copy, B: Allocator>(
    alloc: A,
    certified: &Certified<B>,
) -> Result<Result<FoundPresentation<A>, Unpresented>, Memory>
    ensures code { IfOk result (λ found. IfOk found (λ f. f.quotient.said.code ≡ certified.now.code)) }
    ensures heaps { IfOk result (λ found. IfOk found
        (λ f. f.quotient.said.heaps ≡ length certified.now.phi)) }
    ensures period { IfOk result (λ found. IfOk found
        (λ f. f.quotient.said.period ≡ certified.now.period)) }
{
    let claim = match of_certified(alloc, certified) {
        Ok(claim) => claim,
        Err(Halt::Memory) => return Err(Memory),
        Err(_) => return Ok(Err(Unpresented::Work)),
    };
    let found = match present_claim(alloc, &claim)? {
        Ok(found) => found,
        Err(why) => return Ok(Err(why)),
    };
    let cert = certified.cert();
    let quotient = found.quotient();
    let has_heaps = quotient.heaps() as usize == cert.phi().entries().len();
    let has_period = u64::from(quotient.period()) == cert.period();
    if has_heaps && has_period && *quotient.code() == *cert.code() {
        Ok(Ok(found))
    } else {
        Ok(Err(Unpresented::Refused))
    }
}
