//! Many positions, of a certificate that is at hand.
ghost use Rattle.std.specs.Prelude.{◌≡◌, ◌≢◌, ◌⊎◌, All, IfOk, length};
ghost use Rattle.misere_theory.specs.Certificates.{IsHeapOf};
ghost use Rattle.positions.specs.Positions.{IsSize};
ghost use Rattle.misere_library.specs.Queries.{TellsAnswer};
ghost use Rattle.misere_library.specs.Questions.{TellsAsked};
ghost use Rattle.misere_library.specs.Asked.{AreUnanswered};
ghost use Rattle.player.specs.Many.{AreEnds, TellAll};

use crate::asking::{Question, all_fit, answer_of, number_at};
use allocation::Memory;
use answers::Certified;
use player::{DONE, MEMORY, MisereAnswer, heaps_at};
use std::alloc::Global;

/// Tells what is asked of each position.
pub(crate) fn fill(
    question: Question,
    certified: &Certified,
    heaps: &[u64],
    ends: &[u64],
    told: &mut [u32],
)
    requires speaks { All (IsHeapOf certified.now) heaps.now }
    requires ends { AreEnds (length heaps.now) ends.now }
    requires room { length told.old ≡ length ends.now }
    ensures { TellAll (TellsAsked question) heaps.now ends.now told.new certified.now }
{
    for at in 0..ends.len() {
        told[at] = number_at(question, certified, heaps_at(heaps, ends, at));
    }
}

/// Tells what is asked of each position; else why not.
pub(crate) fn tell_all_in(
    question: Question,
    certified: &Certified,
    heaps: &[u64],
    ends: &[u64],
    told: &mut [u32],
) -> u32
    ensures yes { result ≡ 0
        → TellAll (TellsAsked question) heaps.now ends.now told.new certified.now }
    ensures no { result ≢ 0
        → AreUnanswered certified.now heaps.now ends.now (length told.old) result }
    ensures stays { result ≢ 0 → told.new ≡ told.old }
{
    match all_fit(certified, heaps, ends, told.len()) {
        Ok(()) => {
            fill(question, certified, heaps, ends, told);
            DONE
        }
        Err(status) => status,
    }
}

/// The answer in each position.
fn all_answers(
    alloc: Global,
    certified: &Certified,
    heaps: &[u64],
    ends: &[u64],
) -> Result<Vec<MisereAnswer>, Memory>
    requires sizes { All IsSize heaps.now }
    requires speaks { All (IsHeapOf certified.now) heaps.now }
    requires ends { AreEnds (length heaps.now) ends.now }
    ensures { IfOk result (λ made. TellAll TellsAnswer heaps.now ends.now made.items certified.now) }
{
    let mut made = Vec::new(alloc);
    for at in 0..ends.len() {
        made.push(answer_of(alloc, certified, heaps_at(heaps, ends, at))?)?;
    }
    Ok(made)
}

/// Tells the answer in each position. Where memory is refused on the way, none is told.
pub(crate) fn fill_answers(
    alloc: Global,
    certified: &Certified,
    heaps: &[u64],
    ends: &[u64],
    told: &mut [MisereAnswer],
) -> u32
    requires sizes { All IsSize heaps.now }
    requires speaks { All (IsHeapOf certified.now) heaps.now }
    requires ends { AreEnds (length heaps.now) ends.now }
    requires room { length told.old ≡ length ends.now }
    ensures yes { result ≡ 0 → TellAll TellsAnswer heaps.now ends.now told.new certified.now }
    ensures no { result ≢ 0 → result ≡ 9 }
    ensures stays { result ≢ 0 → told.new ≡ told.old }
{
    match all_answers(alloc, certified, heaps, ends) {
        Ok(made) => {
            told.copy_from_slice(&made);
            DONE
        }
        Err(_) => MEMORY,
    }
}

/// Tells the answer in each position; else why not.
pub(crate) fn answer_all_in(
    alloc: Global,
    certified: &Certified,
    heaps: &[u64],
    ends: &[u64],
    told: &mut [MisereAnswer],
) -> u32
    ensures yes { result ≡ 0 → TellAll TellsAnswer heaps.now ends.now told.new certified.now }
    ensures no { result ≢ 0
        → AreUnanswered certified.now heaps.now ends.now (length told.old) result ⊎ (result ≡ 9) }
    ensures stays { result ≢ 0 → told.new ≡ told.old }
{
    match all_fit(certified, heaps, ends, told.len()) {
        Ok(()) => fill_answers(alloc, certified, heaps, ends, told),
        Err(status) => status,
    }
}
