//! Claims judged by their presentations.
use crate::found::{FoundPresentation, Unpresented, accepted};
use crate::searching::text_of;
use crate::sources::ClaimValues;
use allocation::{Memory, SmallAllocator};
use quotient_search::Halt;

/// How many attempts there are, each of which looks further.
const ATTEMPTS: u32 = 3;

/// Looks for a presentation at one attempt.
fn attempted<A: SmallAllocator + Copy>(
    alloc: A,
    claim: &ClaimValues<A>,
    attempt: u32,
) -> Result<Result<FoundPresentation<A>, Unpresented>, Memory> {
    let text = match text_of(alloc, claim, attempt) {
        Ok(text) => text,
        Err(Halt::Memory) => return Err(Memory),
        Err(Halt::Repairs) => return Ok(Err(Unpresented::Refused)),
        Err(_) => return Ok(Err(Unpresented::Work)),
    };
    accepted(alloc, text)
}

/// Looks for a presentation of a claim, and has it checked. The work is bounded.
pub fn present_claim<A: SmallAllocator + Copy>(
    alloc: A,
    claim: &ClaimValues<A>,
) -> Result<Result<FoundPresentation<A>, Unpresented>, Memory> {
    for attempt in 0..ATTEMPTS {
        match attempted(alloc, claim, attempt)? {
            Ok(found) => return Ok(Ok(found)),
            Err(Unpresented::Refused) => {}
            Err(why) => return Ok(Err(why)),
        }
    }
    Ok(Err(Unpresented::Refused))
}
