//! What is asked of an infinite quotient that was opened.
ghost use Rattle.std.specs.List.Sorted.{IsNonDecreasing};
ghost use Rattle.std.specs.Prelude.{◌≡◌, ◌≢◌, IsPermutation, length};
ghost use Rattle.infinite_queries.specs.Asked.{AreNoAnswers, IsNoAnswer, IsNoAnswerToMany, TellsAnswer, TellsOutcome};
ghost use Rattle.opened.specs.Texts.{kind_of, order_of};
ghost use Rattle.player.specs.Asked.{IsOpened, IsUnopened};
ghost use Rattle.player.specs.Many.{TellAll};

use crate::asking::{answer_in, outcome_in};
use crate::kinds::{kind_of, order_of};
use crate::many::{answers_in, outcomes_in};
use opened::OpenedInfinite;
use player::{DONE, MisereAnswer, NOT_OPEN};
use std::alloc::Global;

/// Tells of which heaps it speaks: 0 where of those of every size, and else the last one. Some before that
/// may be left out.
pub fn kind(alloc: Global, opened: &mut OpenedInfinite, told: &mut u64) -> u32
    ensures yes { result ≡ 0 → IsOpened opened.old.handle.value (λ s. told.new ≡ kind_of s) }
    ensures no { result ≢ 0 → IsUnopened opened.old.handle.value result }
    ensures same { opened.new.handle.value ≡ opened.old.handle.value }
    ensures stays { result ≢ 0 → told.new ≡ told.old }
{
    let Some(quotient) = opened.take(alloc) else {
        return NOT_OPEN;
    };
    *told = kind_of(quotient.shown());
    opened.put(alloc, quotient);
    DONE
}

/// Tells how many elements the quotient has, or 0 where it is infinite.
pub fn order(alloc: Global, opened: &mut OpenedInfinite, told: &mut u64) -> u32
    ensures yes { result ≡ 0 → IsOpened opened.old.handle.value (λ s. told.new ≡ order_of s) }
    ensures no { result ≢ 0 → IsUnopened opened.old.handle.value result }
    ensures same { opened.new.handle.value ≡ opened.old.handle.value }
    ensures stays { result ≢ 0 → told.new ≡ told.old }
{
    let Some(quotient) = opened.take(alloc) else {
        return NOT_OPEN;
    };
    *told = order_of(quotient.shown());
    opened.put(alloc, quotient);
    DONE
}

/// Tells who wins the position of the heaps under misère play: 0 where the player who has just moved
/// does, and 1 where the next one does. It takes no memory.
pub fn outcome(alloc: Global, opened: &mut OpenedInfinite, heaps: &[u64], told: &mut u32) -> u32
    ensures yes { result ≡ 0 → IsOpened opened.old.handle.value (TellsOutcome heaps.now told.new) }
    ensures no { result ≢ 0 → IsNoAnswer opened.old.handle.value heaps.now result }
    ensures same { opened.new.handle.value ≡ opened.old.handle.value }
    ensures stays { result ≢ 0 → told.new ≡ told.old }
{
    let Some(quotient) = opened.take(alloc) else {
        return NOT_OPEN;
    };
    let made = outcome_in(quotient.shown(), heaps);
    opened.put(alloc, quotient);
    match made {
        Ok(number) => {
            *told = number;
            DONE
        }
        Err(status) => status,
    }
}

/// Tells what to do in the position of the heaps: the first winning move, where there is one. Then
/// the heaps stand rising in their own memory, and it takes no other.
pub fn answer(
    alloc: Global,
    opened: &mut OpenedInfinite,
    heaps: &mut [u64],
    told: &mut MisereAnswer,
) -> u32
    ensures yes { result ≡ 0 → IsOpened opened.old.handle.value (TellsAnswer heaps.old told.new) }
    ensures heaps { result ≡ 0 → IsPermutation heaps.old heaps.new }
    ensures rising { result ≡ 0 → IsNonDecreasing heaps.new }
    ensures no { result ≢ 0 → IsNoAnswer opened.old.handle.value heaps.old result }
    ensures same { opened.new.handle.value ≡ opened.old.handle.value }
    ensures stays { result ≢ 0 → told.new ≡ told.old × heaps.new ≡ heaps.old }
{
    let Some(quotient) = opened.take(alloc) else {
        return NOT_OPEN;
    };
    let made = answer_in(quotient.shown(), heaps);
    opened.put(alloc, quotient);
    match made {
        Ok(made) => {
            *told = made;
            DONE
        }
        Err(status) => status,
    }
}

/// Tells the outcome of each of many positions: of the heaps before the first of the ends, of those
/// from there to before the second, and so on. It takes no memory.
pub fn outcomes(
    alloc: Global,
    opened: &mut OpenedInfinite,
    heaps: &[u64],
    ends: &[u64],
    told: &mut [u32],
) -> u32
    ensures yes { result ≡ 0
        → IsOpened opened.old.handle.value (TellAll TellsOutcome heaps.now ends.now told.new) }
    ensures no { result ≢ 0
        → IsNoAnswerToMany opened.old.handle.value heaps.now ends.now (length told.old) result }
    ensures same { opened.new.handle.value ≡ opened.old.handle.value }
    ensures stays { result ≢ 0 → told.new ≡ told.old }
{
    let Some(quotient) = opened.take(alloc) else {
        return NOT_OPEN;
    };
    let status = outcomes_in(quotient.shown(), heaps, ends, told);
    opened.put(alloc, quotient);
    status
}

/// Tells what to do in each of many positions, which stand as for `outcomes`. Where memory is refused on
/// the way, none is told.
pub fn answers(
    alloc: Global,
    opened: &mut OpenedInfinite,
    heaps: &[u64],
    ends: &[u64],
    told: &mut [MisereAnswer],
) -> u32
    ensures yes { result ≡ 0
        → IsOpened opened.old.handle.value (TellAll TellsAnswer heaps.now ends.now told.new) }
    ensures no { result ≢ 0
        → AreNoAnswers opened.old.handle.value heaps.now ends.now (length told.old) result }
    ensures same { opened.new.handle.value ≡ opened.old.handle.value }
    ensures stays { result ≢ 0 → told.new ≡ told.old }
{
    let Some(quotient) = opened.take(alloc) else {
        return NOT_OPEN;
    };
    let made = answers_in(alloc, quotient.shown(), heaps, ends, told.len());
    opened.put(alloc, quotient);
    match made {
        Ok(made) => {
            told.copy_from_slice(&made);
            DONE
        }
        Err(status) => status,
    }
}
