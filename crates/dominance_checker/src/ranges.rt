//! What is tested of the ranks of all heaps, and of the numbers.
ghost use Rattle.std.specs.Prelude.{◌≡◌, ◌<◌, ◌≤◌, ◌+◌, ◌*◌, ℕ, IsTrue, IfSome, All, length};
ghost use Rattle.dominance_checker.specs.Passed.{HasElement, HasFew, HasFar, LosesFew, AreNumbers};

use crate::numbers::Numbers;
use crate::rank::Rank;
use crate::settling::is_element;
use crate::shape::{Shape, rank_of};
use crate::state::State;
use octal_code::Code;

/// Whether the rank of the heap is an element.
fn has_element(s: Shape, ranks: &[Rank], n: u64) -> bool
    ensures { IsTrue result → HasElement s ranks.now n }
{
    match rank_of(s, ranks, n) {
        None => false,
        Some(u) => is_element(u),
    }
}

/// Whether that of each heap below `end` is.
pub(crate) fn have_elements(s: Shape, ranks: &[Rank], end: u64) -> bool
    ensures { IsTrue result → (n : ℕ) → 1 ≤ n → n < end → HasElement s ranks.now n }
{
    for n in 1..end {
        if !has_element(s, ranks, n) {
            return false;
        }
    }
    true
}

/// Whether the heap weighs at most so much.
fn has_few(s: Shape, ranks: &[Rank], few: u64, n: u64) -> bool
    ensures { IsTrue result → HasFew s ranks.now few n }
{
    match rank_of(s, ranks, n) {
        None => false,
        Some(u) => u.weight <= few,
    }
}

/// Whether each heap before the start does.
pub(crate) fn have_few(s: Shape, ranks: &[Rank], few: u64) -> bool
    ensures { IsTrue result → (n : ℕ) → 1 ≤ n → n < s.start → HasFew s ranks.now few n }
{
    for n in 1..s.start {
        if !has_few(s, ranks, few, n) {
            return false;
        }
    }
    true
}

/// Whether the heap weighs at least so much, and has so great a lead, or none.
fn has_far(s: Shape, ranks: &[Rank], far: u64, n: u64) -> bool
    ensures { IsTrue result → HasFar s ranks.now far n }
{
    match rank_of(s, ranks, n) {
        None => false,
        Some(u) => far <= u.weight && (u.lead == 0 || far <= u.lead),
    }
}

/// Whether each heap from `from` on below `end` does.
pub(crate) fn have_far(s: Shape, ranks: &[Rank], far: u64, from: u64, end: u64) -> bool
    ensures { IsTrue result → (n : ℕ) → from ≤ n → n < end → HasFar s ranks.now far n }
{
    for n in from..end {
        if !has_far(s, ranks, far, n) {
            return false;
        }
    }
    true
}

/// Whether the state has no change that loses more than 7. It never has.
fn loses_few(k: &State) -> bool
    ensures { IsTrue result → LosesFew k.now }
{
    k.keeps.len() == 8 && k.flips.len() == 8
}

/// Whether no state of the list has one.
pub(crate) fn lose_few(kept: &[State]) -> bool
    ensures { IsTrue result → All LosesFew kept.now }
{
    for k in kept {
        if !loses_few(k) {
            return false;
        }
    }
    true
}

/// The sum of three numbers, if it isn't too large.
fn sum(a: u64, b: u64, c: u64) -> Option<u64>
    ensures { IfSome result (λ t. t ≡ a + b + c) }
{
    a.checked_add(b)?.checked_add(c)
}

/// Whether the last number is beyond what the claim says by itself.
fn is_beyond(s: Shape, e: Numbers) -> Option<bool>
    ensures { IfSome result (λ b. IsTrue b → (e.large + 2 * s.start + e.digits ≤ e.last)
        × (3 * s.start + 3 * s.period + e.digits ≤ e.last)) }
{
    let large = sum(e.large, s.start.checked_mul(2)?, e.digits)?;
    let all = sum(s.start.checked_mul(3)?, s.period.checked_mul(3)?, e.digits)?;
    Some(large <= e.last && all <= e.last)
}

/// Whether the numbers are such that the tests are enough.
pub(crate) fn are_numbers(code: &Code, s: Shape, e: Numbers) -> bool
    ensures { IsTrue result → AreNumbers s e (length code.now) }
{
    s.start != 0
        && s.period != 0
        && s.rise != 0
        && s.rise % 2 == 0
        && s.start <= e.large
        && e.digits == code.last() as u64
        && match is_beyond(s, e) {
            None => false,
            Some(yes) => yes,
        }
}
