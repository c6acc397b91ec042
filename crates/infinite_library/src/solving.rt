//! The search for an infinite quotient.
ghost use Rattle.std.specs.Prelude.{◌≡◌, ◌≢◌, ◌↔◌, ◌<◌, true, false, IfOk, IfErr, IsErrOf, IsTrue, length, take};
ghost use Rattle.infinite_library.specs.Found.{AreInRange, IsUntold};
ghost use Rattle.solve_command.specs.Asked.{IsFound};
ghost use Rattle.solve_command.specs.Solved.{IsNoCode};

use command_results::{Said, Stop};
use infinite_queries::hand_over;
use misere_theory::LARGEST_PART;
use player::{DONE, MEMORY, NOT_IN_RANGE};
use solve_command::{present_infinite_bytes, solve_infinite_bytes};
use std::alloc::Global;

/// The text is no code's.
const NOT_A_CODE: u32 = 12;

/// The search was given up.
const GAVE_UP: u32 = 13;

/// Whether the heaps are in their range.
fn are_in_range(heaps: u32) -> bool
    ensures { IsTrue result ↔ AreInRange heaps }
{
    1 <= heaps && heaps <= LARGEST_PART as u32
}

/// What the search for the code that the bytes spell says, of its whole game too or of presentations alone.
fn said_of(alloc: Global, code: &[u8], heaps: u32, presented: bool) -> Result<Said, Stop<'static>>
    ensures says { IfOk result (λ s. IsFound code.now heaps presented s.text.items s.succeeds) }
    ensures not_a_code { IsErrOf result Stop.NotACode ↔ IsNoCode code.now }
{
    if presented {
        present_infinite_bytes(alloc, code, heaps)
    } else {
        solve_infinite_bytes(alloc, code, heaps)
    }
}

/// The same, if the heaps are in their range; else the status.
pub(crate) fn found_of(alloc: Global, code: &[u8], heaps: u32, presented: bool) -> Result<Said, u32>
    ensures told { IfOk result
        (λ s. AreInRange heaps × IsFound code.now heaps presented s.text.items s.succeeds) }
    ensures no { IfErr result (λ s. s ≢ 0 × s ≢ 13 × s ≢ 14) }
    ensures why { IfErr result (IsUntold code.now heaps) }
{
    if !are_in_range(heaps) {
        return Err(NOT_IN_RANGE);
    }
    match said_of(alloc, code, heaps, presented) {
        Ok(said) => Ok(said),
        Err(Stop::NotACode) => Err(NOT_A_CODE),
        Err(_) => Err(MEMORY),
    }
}

/// Hands over what is said: 0, or the number of a search that was given up, or that of no room.
pub(crate) fn handed(said: &Said, told: &mut [u8], count: &mut u64) -> u32
    ensures found { result ≡ 0 → said.now.succeeds ≡ true }
    ensures given_up { result ≡ 13 → said.now.succeeds ≡ false }
    ensures put { result ≢ 14 → take count.new told.new ≡ said.now.text.items }
    ensures room { result ≡ 14 → length told.old < count.new × told.new ≡ told.old }
    ensures counted { count.new ≡ length said.now.text.items }
    ensures no_other { result ≢ 0 → result ≢ 13 → result ≡ 14 }
{
    let status = hand_over(&said.text, told, count);
    if status == DONE && !said.succeeds {
        return GAVE_UP;
    }
    status
}
