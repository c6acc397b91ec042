//! What is asked of the bytes of a text.
ghost use Rattle.std.specs.Prelude.{◌≡◌, ◌≢◌, ◌≤◌, ◌<◌, ◌↔◌, IfOk, IfErr, IsTrue, ℕ, List, length, take};
ghost use Rattle.answers.specs.InfiniteRefusals.{refused};
ghost use Rattle.infinite_queries.specs.Numbers.{status_of};
ghost use Rattle.infinite_queries.specs.Asked.{AreRefused, AreShown, BeginsPresented, FailsAt, IsShownBy, IsTrueOfKinds};

use answers::InfiniteRefusal;
use opened::AcceptedText;
use player::{DONE, OUTCOME, put};
use positions::Position;
use presented_checker::check_presented;
use std::alloc::Global;
use whole_checker::judge_whole;

/// The number of a refusal.
fn status(refusal: &InfiniteRefusal) -> u32
    ensures number { result ≡ status_of (refused refusal.now) }
    ensures from_one { 1 ≤ result }
{
    refusal.number() as u32
}

/// Whether the bytes begin as presentations do.
fn begins_presented(bytes: &[u8]) -> bool
    ensures { IsTrue result ↔ BeginsPresented bytes.now }
{
    bytes.starts_with(b"mqp ")
}

/// What bytes that begin as presentations are accepted as, or why they are refused.
fn presented(alloc: Global, bytes: &[u8]) -> Result<AcceptedText, InfiniteRefusal>
    requires { BeginsPresented bytes.now }
    ensures yes { IfOk result (IsShownBy bytes.now) }
    ensures no { IfErr result (λ r. IsTrueOfKinds bytes.now (refused r)) }
{
    match check_presented(alloc, bytes) {
        Ok(quotient) => Ok(AcceptedText::Presented(quotient)),
        Err(refusal) => Err(refusal),
    }
}

/// What all other bytes are accepted as, or why they are refused.
fn whole(alloc: Global, bytes: &[u8]) -> Result<AcceptedText, InfiniteRefusal>
    requires { BeginsPresented bytes.now → ⊥ }
    ensures yes { IfOk result (IsShownBy bytes.now) }
    ensures no { IfErr result (λ r. IsTrueOfKinds bytes.now (refused r)) }
{
    match judge_whole(alloc, bytes) {
        Ok(game) => Ok(AcceptedText::Whole(game)),
        Err(refusal) => Err(refusal),
    }
}

/// What the bytes are accepted as, or why they are refused.
fn accepted(alloc: Global, bytes: &[u8]) -> Result<AcceptedText, InfiniteRefusal>
    ensures yes { IfOk result (IsShownBy bytes.now) }
    ensures no { IfErr result (λ r. IsTrueOfKinds bytes.now (refused r)) }
{
    if begins_presented(bytes) {
        presented(alloc, bytes)
    } else {
        whole(alloc, bytes)
    }
}

/// What the bytes are accepted as, or the number of the refusal.
pub(crate) fn shown(alloc: Global, bytes: &[u8]) -> Result<AcceptedText, u32>
    ensures yes { IfOk result (IsShownBy bytes.now) }
    ensures no { IfErr result (λ s. s ≢ 0 × AreRefused bytes.now s) }
{
    match accepted(alloc, bytes) {
        Ok(shown) => Ok(shown),
        Err(refusal) => Err(status(&refusal)),
    }
}

/// Whether the bytes are an accepted text of a whole game or an accepted presentation: 0, or the number of the refusal.
pub fn check(alloc: Global, bytes: &[u8]) -> u32
    ensures yes { result ≡ 0 → AreShown bytes.now (λ k. Unit {0}) }
    ensures no { result ≢ 0 → AreRefused bytes.now result }
{
    match shown(alloc, bytes) {
        Ok(shown) => {
            drop(shown);
            DONE
        }
        Err(status) => status,
    }
}

/// Tells how many heaps the position has, and which, if there is room for them. At it the rule fails
/// that the bytes are refused for.
fn tell(bytes: &[u8], position: &Position, told: &mut [u64], count: &mut u64)
    requires { FailsAt bytes.now position.now }
    ensures fails { count.new ≤ length told.old → FailsAt bytes.now (take count.new told.new) }
    ensures counts { (X : List ℕ) × FailsAt bytes.now X × (count.new ≡ length X) }
    ensures no_room { length told.old < count.new → told.new ≡ told.old }
{
    let _ = bytes;
    *count = put(position.heaps(), told);
}

/// Checks the bytes, and where the rule of the code's game fails at a position tells how many heaps
/// it has, and which, if there is room for them.
pub fn failure(alloc: Global, bytes: &[u8], told: &mut [u64], count: &mut u64) -> u32
    ensures yes { result ≡ 0 → AreShown bytes.now (λ k. Unit {0}) }
    ensures no { result ≢ 0 → AreRefused bytes.now result }
    ensures fails { result ≡ 7 → count.new ≤ length told.old
        → FailsAt bytes.now (take count.new told.new) }
    ensures counts { result ≡ 7 → (X : List ℕ) × FailsAt bytes.now X × (count.new ≡ length X) }
    ensures no_room { length told.old < count.new → told.new ≡ told.old }
    ensures stays { result ≢ 7 → told.new ≡ told.old × count.new ≡ count.old }
{
    match accepted(alloc, bytes) {
        Ok(shown) => {
            drop(shown);
            DONE
        }
        Err(InfiniteRefusal::Outcome(_, position)) => {
            tell(bytes, &position, told, count);
            OUTCOME
        }
        Err(refusal) => status(&refusal),
    }
}
