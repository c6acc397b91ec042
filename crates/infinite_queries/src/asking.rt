//! What is asked of an infinite quotient that is at hand.
ghost use Rattle.std.specs.List.Sorted.{IsNonDecreasing};
ghost use Rattle.std.specs.Prelude.{◌≡◌, ◌≢◌, All, IfOk, IfErr, OnOk, OnErr, IsPermutation, length};
ghost use Rattle.positions.specs.Positions.{IsSize};
ghost use Rattle.infinite_queries.specs.Asked.{AreUnanswered, IsSpokenOf, IsUnanswered, TellsAnswer, TellsOutcome};
ghost use Rattle.player.specs.Many.{AreEnds};

use crate::kinds::{rising_answer, speaks, winner};
use allocation::Memory;
use opened::AcceptedText;
use player::{
    BEYOND, MisereAnswer, NOT_A_HEAP, NOT_ENDS, are_ends, are_sizes, number, position_of, told,
};
use positions::Position;
use std::alloc::Global;

/// Whether the text speaks of the heaps; else why not.
pub(crate) fn fit(shown: &AcceptedText, heaps: &[u64]) -> Result<(), u32>
    ensures sizes { OnOk result (All IsSize heaps.now) }
    ensures speaks { OnOk result (All (IsSpokenOf shown.now) heaps.now) }
    ensures no { IfErr result (λ s. s ≢ 0 × IsUnanswered shown.now heaps.now s) }
{
    if !are_sizes(heaps) {
        return Err(NOT_A_HEAP);
    }
    if !speaks(shown, heaps) {
        return Err(BEYOND);
    }
    Ok(())
}

/// Whether the ends cut the heaps into as many positions as there is room for, and the text
/// speaks of the heaps; else why not.
pub(crate) fn all_fit(
    shown: &AcceptedText,
    heaps: &[u64],
    ends: &[u64],
    room: usize,
) -> Result<(), u32>
    ensures sizes { OnOk result (All IsSize heaps.now) }
    ensures speaks { OnOk result (All (IsSpokenOf shown.now) heaps.now) }
    ensures ends { OnOk result (AreEnds (length heaps.now) ends.now) }
    ensures room { OnOk result (room ≡ length ends.now) }
    ensures no { IfErr result (λ s. s ≢ 0 × AreUnanswered shown.now heaps.now ends.now room s) }
{
    if room != ends.len() || !are_ends(heaps.len(), ends) {
        return Err(NOT_ENDS);
    }
    fit(shown, heaps)
}

/// The outcome of the position of the heaps.
pub(crate) fn outcome_of(shown: &AcceptedText, heaps: &[u64]) -> u32
    requires { All (IsSpokenOf shown.now) heaps.now }
    ensures { TellsOutcome heaps.now result shown.now }
{
    number(winner(shown, heaps))
}

/// The outcome of the position of the heaps, or why there is none.
pub(crate) fn outcome_in(shown: &AcceptedText, heaps: &[u64]) -> Result<u32, u32>
    ensures yes { IfOk result (λ n. TellsOutcome heaps.now n shown.now) }
    ensures no { IfErr result (λ s. s ≢ 0 × IsUnanswered shown.now heaps.now s) }
{
    fit(shown, heaps)?;
    Ok(outcome_of(shown, heaps))
}

/// The answer in a position, which is that of the heaps.
fn answer_to(shown: &AcceptedText, heaps: &[u64], position: &Position) -> MisereAnswer
    requires speaks { All (IsSpokenOf shown.now) heaps.now }
    requires same { IsPermutation heaps.now position.now }
    ensures { TellsAnswer heaps.now result shown.now }
{
    told(rising_answer(shown, position.heaps()))
}

/// The answer in the position of the heaps.
pub(crate) fn answer_of(
    alloc: Global,
    shown: &AcceptedText,
    heaps: &[u64],
) -> Result<MisereAnswer, Memory>
    requires sizes { All IsSize heaps.now }
    requires speaks { All (IsSpokenOf shown.now) heaps.now }
    ensures { IfOk result (λ n. TellsAnswer heaps.now n shown.now) }
{
    let position = position_of(alloc, heaps)?;
    Ok(answer_to(shown, heaps, &position))
}

/// The answer in the position of the heaps, which stand rising afterwards.
fn sorted_answer(shown: &AcceptedText, heaps: &mut [u64]) -> MisereAnswer
    requires { All (IsSpokenOf shown.now) heaps.old }
    ensures told { TellsAnswer heaps.old result shown.now }
    ensures same { IsPermutation heaps.old heaps.new }
    ensures rising { IsNonDecreasing heaps.new }
{
    heaps.sort_unstable();
    told(rising_answer(shown, heaps))
}

/// The answer in the position of the heaps, which stand rising afterwards; or why there is none.
pub(crate) fn answer_in(shown: &AcceptedText, heaps: &mut [u64]) -> Result<MisereAnswer, u32>
    ensures yes { IfOk result (λ n. TellsAnswer heaps.old n shown.now) }
    ensures same { OnOk result (IsPermutation heaps.old heaps.new) }
    ensures rising { OnOk result (IsNonDecreasing heaps.new) }
    ensures no { IfErr result (λ s. s ≢ 0 × IsUnanswered shown.now heaps.old s) }
    ensures stays { OnErr result (heaps.new ≡ heaps.old) }
{
    fit(shown, heaps)?;
    Ok(sorted_answer(shown, heaps))
}
