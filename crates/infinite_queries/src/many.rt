//! Many positions at once.
ghost use Rattle.std.specs.Prelude.{◌≡◌, ◌≢◌, ◌⊎◌, All, IfOk, IfErr, length};
ghost use Rattle.positions.specs.Positions.{IsSize};
ghost use Rattle.infinite_queries.specs.Asked.{AreUnanswered, IsSpokenOf, TellsAnswer, TellsOutcome};
ghost use Rattle.player.specs.Many.{AreEnds, TellAll};

use crate::asking::{all_fit, answer_of, outcome_of};
use allocation::Memory;
use opened::AcceptedText;
use player::{DONE, MEMORY, MisereAnswer, heaps_at};
use std::alloc::Global;

/// Tells the outcome of each position.
fn fill_outcomes(shown: &AcceptedText, heaps: &[u64], ends: &[u64], told: &mut [u32])
    requires speaks { All (IsSpokenOf shown.now) heaps.now }
    requires ends { AreEnds (length heaps.now) ends.now }
    requires room { length told.old ≡ length ends.now }
    ensures { TellAll TellsOutcome heaps.now ends.now told.new shown.now }
{
    for at in 0..ends.len() {
        told[at] = outcome_of(shown, heaps_at(heaps, ends, at));
    }
}

/// Tells the outcome of each position; else why not.
pub(crate) fn outcomes_in(
    shown: &AcceptedText,
    heaps: &[u64],
    ends: &[u64],
    told: &mut [u32],
) -> u32
    ensures yes { result ≡ 0 → TellAll TellsOutcome heaps.now ends.now told.new shown.now }
    ensures no { result ≢ 0 → AreUnanswered shown.now heaps.now ends.now (length told.old) result }
    ensures stays { result ≢ 0 → told.new ≡ told.old }
{
    match all_fit(shown, heaps, ends, told.len()) {
        Ok(()) => {
            fill_outcomes(shown, heaps, ends, told);
            DONE
        }
        Err(status) => status,
    }
}

/// The answer in each position.
fn all_answers(
    alloc: Global,
    shown: &AcceptedText,
    heaps: &[u64],
    ends: &[u64],
) -> Result<Vec<MisereAnswer>, Memory>
    requires sizes { All IsSize heaps.now }
    requires speaks { All (IsSpokenOf shown.now) heaps.now }
    requires ends { AreEnds (length heaps.now) ends.now }
    ensures { IfOk result (λ made. TellAll TellsAnswer heaps.now ends.now made.items shown.now) }
{
    let mut made = Vec::new(alloc);
    for at in 0..ends.len() {
        made.push(answer_of(alloc, shown, heaps_at(heaps, ends, at))?)?;
    }
    Ok(made)
}

/// The answer in each position, or why there is none.
pub(crate) fn answers_in(
    alloc: Global,
    shown: &AcceptedText,
    heaps: &[u64],
    ends: &[u64],
    room: usize,
) -> Result<Vec<MisereAnswer>, u32>
    ensures yes { IfOk result (λ made. TellAll TellsAnswer heaps.now ends.now made.items shown.now) }
    ensures room { IfOk result (λ made. room ≡ length ends.now) }
    ensures no { IfErr result (λ s. s ≢ 0
        × (AreUnanswered shown.now heaps.now ends.now room s ⊎ (s ≡ 9))) }
{
    all_fit(shown, heaps, ends, room)?;
    match all_answers(alloc, shown, heaps, ends) {
        Ok(made) => Ok(made),
        Err(_) => Err(MEMORY),
    }
}
