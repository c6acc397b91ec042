//! Positions settled one after another, the last that waits first.
ghost use Rattle.std.specs.Prelude.{◌≡◌, [], ◌∷◌, ◌++◌, slice_index_or, IfOk, OnOk};
ghost use Rattle.std.specs.List.Sorted.{IsNonDecreasing};
ghost use Rattle.misere_theory.specs.Plays.{MoreReachableThan};
ghost use Rattle.positions.specs.Outcomes.{HasOutcome};
ghost use Rattle.outcome_search.specs.Searching.{IsSearch};
ghost use Rattle.outcome_search.specs.Settled.{IsSettledBy};

use crate::fault::SearchFault;
use crate::look::look;
use crate::memo::Memo;
use allocation::{Memory, SmallAllocator};
use octal_code::Code;
use positions::{Outcome, Position};

/// What waits at the start: the position alone.
fn begun<A: SmallAllocator + Copy>(
    alloc: A,
    position: &Position<A>,
) -> Result<Vec<Position<A>, A>, Memory>
    ensures alone { IfOk result (λ w. w.items ≡ position.now ∷ []) }
    ensures rising { IsNonDecreasing position.now }
{
    let first = position.copied(alloc)?;
    let mut waiting = Vec::new(alloc);
    waiting.push(first)?;
    Ok(waiting)
}

/// A copy of the position waits behind the others.
fn add<A: SmallAllocator + Copy>(
    alloc: A,
    waiting: &mut Vec<Position<A>, A>,
    next: &Position<A>,
) -> Result<(), Memory>
    ensures { OnOk result (waiting.new.items ≡ waiting.old.items ++ next.now ∷ []) }
{
    waiting.push(next.copied(alloc)?)?;
    Ok(())
}

/// The outcome of the first position that waits, once all behind it are settled. `next` is written
/// anew at each look.
fn settle_all<A: SmallAllocator + Copy>(
    alloc: A,
    code: &Code,
    budget: u32,
    memo: &mut Memo<A>,
    waiting: &mut Vec<Position<A>, A>,
    next: &mut Position<A>,
) -> Result<Outcome, SearchFault>
    requires { IsSearch code.now (slice_index_or waiting.old.items 0 []) budget memo.old
        waiting.old.items }
    ensures answer { IfOk result (HasOutcome code.now (slice_index_or waiting.old.items 0 [])) }
    ensures within { IfOk result
        (λ outcome. IsSettledBy code.now (slice_index_or waiting.old.items 0 []) outcome budget) }
    ensures budget { result ≡ Err SearchFault.Budget
        → MoreReachableThan code.now (slice_index_or waiting.old.items 0 []) budget }
{
    loop {
        let last = waiting.len() - 1;
        match look(code, &waiting[last], memo, next)? {
            None => {
                if memo.len() + waiting.len() >= budget as usize {
                    return Err(SearchFault::Budget);
                }
                add(alloc, waiting, next)?;
            }
            Some(outcome) => {
                if last == 0 {
                    return Ok(outcome);
                }
                let done = waiting.remove(last);
                memo.insert(done, outcome)?;
            }
        }
    }
}

/// The outcome of a position, found by a search that goes depth first and remembers the outcomes
/// that it finds. It gives up where it would have to remember more than `budget` of them. The stack
/// doesn't grow with the length of the plays.
pub(crate) fn settle<A: SmallAllocator + Copy>(
    alloc: A,
    code: &Code,
    position: &Position<A>,
    budget: u32,
) -> Result<Outcome, SearchFault>
    ensures answer { IfOk result (HasOutcome code.now position.now) }
    ensures within { IfOk result (λ outcome. IsSettledBy code.now position.now outcome budget) }
    ensures budget { result ≡ Err SearchFault.Budget
        → MoreReachableThan code.now position.now budget }
{
    if budget == 0 {
        return Err(SearchFault::Budget);
    }
    let mut waiting = begun(alloc, position)?;
    let mut memo = Memo::new(alloc);
    let mut next = Position::new(alloc);
    settle_all(alloc, code, budget, &mut memo, &mut waiting, &mut next)
}
