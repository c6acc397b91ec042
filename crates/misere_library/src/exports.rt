//! The calls.
ghost use Rattle.std.specs.Prelude.{◌≡◌, ◌≢◌, ◌≤◌, ◌<◌, ℕ, List, length, take};
ghost use Rattle.misere_library.specs.Queries.{Certify, FailsAt, IsNo, IsNoToMany, IsStatus, TellsOutcome, TellsValue, TellsAnswer};
ghost use Rattle.player.specs.Many.{TellAll};

use crate::asking::{Question, answer_of};
use crate::bytes::{certified, certified_of, certified_of_all, status, tell, tell_all};
use crate::many::fill_answers;
use checker::{Refusal, check};
use player::{DONE, MEMORY, MisereAnswer, OUTCOME, put};
use std::alloc::Global;

/// The version of these calls.
#[unsafe(no_mangle)]
pub extern "C" fn misere_version() -> u32
    ensures { result ≡ 2 }
{
    2
}

/// Whether the bytes are an accepted certificate: 0, or the number of the refusal.
#[unsafe(no_mangle)]
pub extern "C" fn misere_check(alloc: Global, bytes: &[u8], limit: u32) -> u32
    ensures status { IsStatus bytes.now limit result }
    ensures yes { result ≡ 0 → Certify bytes.now limit (λ c. Unit {0}) }
{
    match certified(alloc, bytes, limit) {
        Ok(_) => DONE,
        Err(status) => status,
    }
}

/// Tells who wins the position of the heaps under misère play: 0 where the player who has just
/// moved does, and 1 where the next one does.
#[unsafe(no_mangle)]
pub extern "C" fn misere_outcome(
    alloc: Global,
    bytes: &[u8],
    limit: u32,
    heaps: &[u64],
    told: &mut u32,
) -> u32
    ensures yes { result ≡ 0 → Certify bytes.now limit (TellsOutcome heaps.now told.new) }
    ensures no { result ≢ 0 → IsNo bytes.now limit heaps.now result }
    ensures stays { result ≢ 0 → told.new ≡ told.old }
{
    tell(alloc, bytes, limit, Question::Outcome, heaps, told)
}

/// Tells the element of the quotient that is the position's.
#[unsafe(no_mangle)]
pub extern "C" fn misere_value(
    alloc: Global,
    bytes: &[u8],
    limit: u32,
    heaps: &[u64],
    told: &mut u32,
) -> u32
    ensures yes { result ≡ 0 → Certify bytes.now limit (TellsValue heaps.now told.new) }
    ensures no { result ≢ 0 → IsNo bytes.now limit heaps.now result }
    ensures stays { result ≢ 0 → told.new ≡ told.old }
{
    tell(alloc, bytes, limit, Question::Value, heaps, told)
}

/// Tells what to do in the position of the heaps: the first winning move, where there is one.
#[unsafe(no_mangle)]
pub extern "C" fn misere_answer(
    alloc: Global,
    bytes: &[u8],
    limit: u32,
    heaps: &[u64],
    told: &mut MisereAnswer,
) -> u32
    ensures yes { result ≡ 0 → Certify bytes.now limit (TellsAnswer heaps.now told.new) }
    ensures no { result ≢ 0 → IsNo bytes.now limit heaps.now result }
    ensures stays { result ≢ 0 → told.new ≡ told.old }
{
    match certified_of(alloc, bytes, limit, heaps) {
        Ok(certified) => match answer_of(alloc, &certified, heaps) {
            Ok(answer) => {
                *told = answer;
                DONE
            }
            Err(_) => MEMORY,
        },
        Err(status) => status,
    }
}

/// Tells the outcome of each of many positions: of the heaps before the first of the ends, of those
/// from there to before the second, and so on.
#[unsafe(no_mangle)]
pub extern "C" fn misere_outcomes(
    alloc: Global,
    bytes: &[u8],
    limit: u32,
    heaps: &[u64],
    ends: &[u64],
    told: &mut [u32],
) -> u32
    ensures yes { result ≡ 0 → Certify bytes.now limit (TellAll TellsOutcome heaps.now ends.now told.new) }
    ensures no { result ≢ 0
        → IsNoToMany bytes.now limit heaps.now ends.now (length told.old) result }
    ensures stays { result ≢ 0 → told.new ≡ told.old }
{
    tell_all(alloc, bytes, limit, Question::Outcome, heaps, ends, told)
}

/// Tells the element of each of many positions, which stand as for `misere_outcomes`.
#[unsafe(no_mangle)]
pub extern "C" fn misere_values(
    alloc: Global,
    bytes: &[u8],
    limit: u32,
    heaps: &[u64],
    ends: &[u64],
    told: &mut [u32],
) -> u32
    ensures yes { result ≡ 0
        → Certify bytes.now limit (TellAll TellsValue heaps.now ends.now told.new) }
    ensures no { result ≢ 0
        → IsNoToMany bytes.now limit heaps.now ends.now (length told.old) result }
    ensures stays { result ≢ 0 → told.new ≡ told.old }
{
    tell_all(alloc, bytes, limit, Question::Value, heaps, ends, told)
}

/// Tells what to do in each of many positions, which stand as for `misere_outcomes`.
#[unsafe(no_mangle)]
pub extern "C" fn misere_answers(
    alloc: Global,
    bytes: &[u8],
    limit: u32,
    heaps: &[u64],
    ends: &[u64],
    told: &mut [MisereAnswer],
) -> u32
    ensures yes { result ≡ 0
        → Certify bytes.now limit (TellAll TellsAnswer heaps.now ends.now told.new) }
    ensures no { result ≢ 0
        → IsNoToMany bytes.now limit heaps.now ends.now (length told.old) result }
    ensures stays { result ≢ 0 → told.new ≡ told.old }
{
    match certified_of_all(alloc, bytes, limit, heaps, ends, told.len()) {
        Ok(certified) => fill_answers(alloc, &certified, heaps, ends, told),
        Err(status) => status,
    }
}

/// Checks the bytes, and where the rule of the code's game fails at a position tells how many heaps
/// it has, and which, if there is room for them.
#[unsafe(no_mangle)]
pub extern "C" fn misere_failure(
    alloc: Global,
    bytes: &[u8],
    limit: u32,
    told: &mut [u64],
    count: &mut u64,
) -> u32
    ensures status { IsStatus bytes.now limit result }
    ensures fails { result ≡ 7 → count.new ≤ length told.old
        → FailsAt bytes.now limit (take count.new told.new) }
    ensures counts { result ≡ 7 → (X : List ℕ) × FailsAt bytes.now limit X × (count.new ≡ length X) }
    ensures no_room { length told.old < count.new → told.new ≡ told.old }
    ensures stays { result ≢ 7 → told.new ≡ told.old × count.new ≡ count.old }
{
    match check(alloc, bytes, limit) {
        Ok(_) => DONE,
        Err(Refusal::Outcome(_, position)) => {
            *count = put(position.heaps(), told);
            OUTCOME
        }
        Err(refusal) => status(&refusal),
    }
}
