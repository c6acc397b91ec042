//! What the options of a position show.
ghost use Rattle.std.specs.Prelude.{◌<◌, length, slice_index, IfOk, MatchOption};
ghost use Rattle.outcome_search.specs.Known.{known, HasSeen, IsUnknown};
ghost use Rattle.outcome_search.specs.Settled.{Follows};
ghost use Rattle.heap_options.specs.Options.{options_of};

use crate::memo::Memo;
use allocation::{Memory, SmallAllocator};
use octal_code::Code;
use positions::{Outcome, Position, options, options_are_exact};

/// What the options of a heap show.
#[derive(Clone, Copy)]
pub(crate) enum Seen {
    /// There is none.
    Nothing,
    /// Each leads to an N-position.
    Loses,
    /// One leads to a P-position.
    Wins,
    /// One leads to a position of which nothing is known.
    Unknown,
}

/// The outcome of a position by what is known, or, where that isn't enough, `None`: then `next` is
/// a position that a move leads to and of which nothing is known.
pub(crate) fn look<A: SmallAllocator + Copy>(
    code: &Code,
    position: &Position<A>,
    memo: &Memo<A>,
    next: &mut Position<A>,
) -> Result<Option<Outcome>, Memory>
    ensures { IfOk result
        (λ seen. MatchOption seen (IsUnknown code.now position.now memo.now next.new)
        (Follows code.now memo.now position.now)) }
{
    options_are_exact();
    let heaps = position.heaps();
    let mut can_move = false;
    for (at, heap) in heaps.iter().enumerate() {
        if at > 0 && heaps[at - 1] == *heap {
            continue;
        }
        match look_at(code, position, at, memo, next)? {
            Seen::Nothing => {}
            Seen::Loses => can_move = true,
            Seen::Wins => return Ok(Some(Outcome::N)),
            Seen::Unknown => return Ok(None),
        }
    }
    Ok(Some(if can_move { Outcome::P } else { Outcome::N }))
}

/// What the options of the heap at the place `at` show. Where one leads to a position of which
/// nothing is known, `next` is that position.
fn look_at<A: SmallAllocator + Copy>(
    code: &Code,
    position: &Position<A>,
    at: usize,
    memo: &Memo<A>,
    next: &mut Position<A>,
) -> Result<Seen, Memory>
    requires { at < length position.now }
    ensures { IfOk result
        (λ seen. HasSeen code.now position.now memo.now at
        (options_of code.now (slice_index position.now at)) seen next.new) }
{
    options_are_exact();
    let mut seen = Seen::Nothing;
    for left in options(code, position.heaps()[at]) {
        next.set_moved(position, at, left)?;
        match memo.get(next) {
            Some(Outcome::P) => return Ok(Seen::Wins),
            Some(Outcome::N) => seen = Seen::Loses,
            None => return Ok(Seen::Unknown),
        }
    }
    Ok(seen)
}
