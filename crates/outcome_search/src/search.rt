//! The search for an outcome.
ghost use Rattle.std.specs.Prelude.{◌≡◌, IfOk};
ghost use Rattle.misere_theory.specs.Plays.{MoreReachableThan};
ghost use Rattle.positions.specs.Outcomes.{HasOutcome};
ghost use Rattle.outcome_search.specs.Settled.{IsSettledBy};

use crate::fault::SearchFault;
use crate::reach::reaches_more;
use crate::settling::settle;
use allocation::SmallAllocator;
use octal_code::Code;
use positions::{Outcome, Position};

/// Through so many positions an outcome is searched before the positions are counted that can be
/// reached.
const FEW: u32 = 1024;

/// The misère outcome of a position, found by a search through the positions that moves reach from
/// it, which remembers the outcomes that it finds. It gives up only where more than `budget`
/// positions can be reached, the position itself counted and those that differ by the order of
/// heaps counted once, and it answers only where that many positions settle the answer: it
/// remembers no more. The stack doesn't grow with the length of the plays.
///
/// Where a short search doesn't settle it, the positions are counted first: to give up costs no
/// more than to list `budget` of them.
pub fn outcome<A: SmallAllocator + Copy>(
    alloc: A,
    code: &Code,
    position: &Position<A>,
    budget: u32,
) -> Result<Outcome, SearchFault>
    ensures answer { IfOk result (HasOutcome code.now position.now) }
    ensures within { IfOk result (λ outcome. IsSettledBy code.now position.now outcome budget) }
    ensures budget { result ≡ Err SearchFault.Budget
        → MoreReachableThan code.now position.now budget }
{
    if budget > FEW {
        match settle(alloc, code, position, FEW) {
            Err(SearchFault::Budget) => {}
            answer => return answer,
        }
        if reaches_more(alloc, code, position, budget)? {
            return Err(SearchFault::Budget);
        }
    }
    settle(alloc, code, position, budget)
}
