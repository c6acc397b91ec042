//! What is asked of a certificate that is at hand.
ghost use Rattle.std.specs.List.Sorted.{IsNonDecreasing};
ghost use Rattle.std.specs.Prelude.{◌≡◌, ◌≢◌, All, IfOk, IfErr, IsPermutation, OnOk, OnErr, length};
ghost use Rattle.misere_theory.specs.Certificates.{IsHeapOf};
ghost use Rattle.positions.specs.Positions.{IsSize};
ghost use Rattle.misere_library.specs.Queries.{TellsAnswer};
ghost use Rattle.misere_library.specs.Questions.{TellsAsked};
ghost use Rattle.player.specs.Many.{AreEnds};
ghost use Rattle.misere_library.specs.Asked.{AreUnanswered, IsUnanswered};

use crate::heaps::speaks_of;
use allocation::Memory;
use answers::Certified;
use player::{
    BEYOND, DONE, MisereAnswer, NOT_A_HEAP, NOT_ENDS, answer, answer_at, are_ends, are_sizes,
    number, position_of, told,
};
use positions::{Outcome, Position};
use std::alloc::Global;

/// What is asked of a position, where a number tells it.
#[derive(Clone, Copy)]
pub(crate) enum Question {
    /// Who wins.
    Outcome,
    /// Which element of the quotient is its own.
    Value,
}

/// Whether the certificate speaks of the heaps; else why not.
pub(crate) fn fit(certified: &Certified, heaps: &[u64]) -> Result<(), u32>
    ensures sizes { OnOk result (All IsSize heaps.now) }
    ensures speaks { OnOk result (All (IsHeapOf certified.now) heaps.now) }
    ensures no { IfErr result (λ s. s ≢ 0 × IsUnanswered certified.now heaps.now s) }
{
    if !are_sizes(heaps) {
        return Err(NOT_A_HEAP);
    }
    if !speaks_of(certified, heaps) {
        return Err(BEYOND);
    }
    Ok(())
}

/// Whether the ends cut the heaps into as many positions as there is room for, and the certificate
/// speaks of the heaps; else why not.
pub(crate) fn all_fit(
    certified: &Certified,
    heaps: &[u64],
    ends: &[u64],
    room: usize,
) -> Result<(), u32>
    ensures sizes { OnOk result (All IsSize heaps.now) }
    ensures speaks { OnOk result (All (IsHeapOf certified.now) heaps.now) }
    ensures ends { OnOk result (AreEnds (length heaps.now) ends.now) }
    ensures room { OnOk result (room ≡ length ends.now) }
    ensures no { IfErr result (λ s. s ≢ 0
        × AreUnanswered certified.now heaps.now ends.now room s) }
{
    if room != ends.len() || !are_ends(heaps.len(), ends) {
        return Err(NOT_ENDS);
    }
    fit(certified, heaps)
}

/// What is asked of the position of the heaps.
pub(crate) fn number_at(question: Question, certified: &Certified, heaps: &[u64]) -> u32
    requires { All (IsHeapOf certified.now) heaps.now }
    ensures { TellsAsked question heaps.now result certified.now }
{
    let value = certified.value(heaps);
    match question {
        Question::Value => value as u32,
        Question::Outcome => {
            if certified.holds(value) {
                number(Outcome::P)
            } else {
                number(Outcome::N)
            }
        }
    }
}

/// Tells what is asked of the position of the heaps; else why not.
pub(crate) fn tell_in(
    question: Question,
    certified: &Certified,
    heaps: &[u64],
    told: &mut u32,
) -> u32
    ensures yes { result ≡ 0 → TellsAsked question heaps.now told.new certified.now }
    ensures no { result ≢ 0 → IsUnanswered certified.now heaps.now result }
    ensures stays { result ≢ 0 → told.new ≡ told.old }
{
    match fit(certified, heaps) {
        Ok(()) => {
            *told = number_at(question, certified, heaps);
            DONE
        }
        Err(status) => status,
    }
}

/// The answer in the position of the heaps.
pub(crate) fn answer_of(
    alloc: Global,
    certified: &Certified,
    heaps: &[u64],
) -> Result<MisereAnswer, Memory>
    requires sizes { All IsSize heaps.now }
    requires speaks { All (IsHeapOf certified.now) heaps.now }
    ensures { IfOk result (λ n. TellsAnswer heaps.now n certified.now) }
{
    let position = position_of(alloc, heaps)?;
    Ok(answer_to(certified, heaps, &position))
}

/// The answer in a position, which is that of the heaps.
fn answer_to(certified: &Certified, heaps: &[u64], position: &Position) -> MisereAnswer
    requires speaks { All (IsHeapOf certified.now) heaps.now }
    requires same { IsPermutation heaps.now position.now }
    ensures { TellsAnswer heaps.now result certified.now }
{
    position.heaps();
    told(answer(certified, position))
}

/// The answer in the position of the heaps, which stand rising afterwards.
fn sorted_answer(certified: &Certified, heaps: &mut [u64]) -> MisereAnswer
    requires { All (IsHeapOf certified.now) heaps.old }
    ensures told { TellsAnswer heaps.old result certified.now }
    ensures same { IsPermutation heaps.old heaps.new }
    ensures rising { IsNonDecreasing heaps.new }
{
    heaps.sort_unstable();
    told(answer_at(certified, heaps))
}

/// The answer in the position of the heaps, which stand rising afterwards; or why there is none.
pub(crate) fn answer_in(certified: &Certified, heaps: &mut [u64]) -> Result<MisereAnswer, u32>
    ensures yes { IfOk result (λ n. TellsAnswer heaps.old n certified.now) }
    ensures same { OnOk result (IsPermutation heaps.old heaps.new) }
    ensures rising { OnOk result (IsNonDecreasing heaps.new) }
    ensures no { IfErr result (λ s. s ≢ 0 × IsUnanswered certified.now heaps.old s) }
    ensures stays { OnErr result (heaps.new ≡ heaps.old) }
{
    fit(certified, heaps)?;
    Ok(sorted_answer(certified, heaps))
}
