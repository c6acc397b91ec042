//! Whether heaps make all elements of U.
ghost use Rattle.std.specs.Prelude.{◌<◌, ◌≤◌, ◌+◌, ℕ, IsTrue};
ghost use Rattle.dominance.specs.Quotient.{HasAllRulers};
ghost use Rattle.dominance_checker.specs.Ranks.{label_by};
ghost use Rattle.dominance_checker.specs.Elements.{IsTight, HasTight, HasLasting};

use crate::rank::Rank;
use crate::rulers::{is_turning, is_waiting, turning, waiting};
use crate::shape::{Shape, rank_of};

/// Whether the heap n has the lead m, and one more of weight.
fn is_tight(s: Shape, ranks: &[Rank], n: u64, m: u64) -> bool
    ensures { IsTrue result → IsTight s ranks.now n m }
{
    match rank_of(s, ranks, n) {
        None => false,
        Some(u) => n != 0 && u.lead == m && u.weight > m && u.weight - m == 1,
    }
}

/// Whether some heap from `from` on and below `end` is so.
fn has_tight(s: Shape, ranks: &[Rank], from: u64, end: u64, m: u64) -> bool
    ensures { IsTrue result → HasTight s ranks.now m }
{
    for n in from..end {
        if is_tight(s, ranks, n, m) {
            return true;
        }
    }
    false
}

/// Whether some heap from the start on and below `end` is so.
fn has_lasting(s: Shape, ranks: &[Rank], end: u64, m: u64) -> bool
    ensures { IsTrue result → HasLasting s ranks.now m }
{
    for n in s.start..end {
        if is_tight(s, ranks, n, m) {
            return true;
        }
    }
    false
}

/// Whether there are heaps with each lead from 1 on below `low`.
fn have_tight(s: Shape, ranks: &[Rank], end: u64, low: u64) -> bool
    ensures { IsTrue result → (m : ℕ) → 1 ≤ m → m < low → HasTight s ranks.now m }
{
    for m in 1..low {
        if !has_tight(s, ranks, 1, end, m) {
            return false;
        }
    }
    true
}

/// Whether there are heaps from the start on with each lead from `low` on below `high`.
fn have_lasting(s: Shape, ranks: &[Rank], end: u64, low: u64, high: u64) -> bool
    ensures { IsTrue result → (m : ℕ) → low ≤ m → m < high → HasLasting s ranks.now m }
{
    for m in low..high {
        if !has_lasting(s, ranks, end, m) {
            return false;
        }
    }
    true
}

/// Whether heaps make all elements, seen at the leads up to `low` and a rise more, and at t and w, which turn
/// the parity and wait.
fn are_all_made(s: Shape, ranks: &[Rank], end: u64, low: u64, t: u64, w: u64) -> bool
    ensures { IsTrue result → HasAllRulers (label_by s ranks.now) }
{
    let Some(high) = low.checked_add(s.rise) else {
        return false;
    };
    if s.period == 0 || s.rise == 0 || low == 0 {
        return false;
    }
    if !is_turning(s, ranks, t) || !is_waiting(s, ranks, w) {
        return false;
    }
    if !have_lasting(s, ranks, end, low, high) {
        return false;
    }
    have_tight(s, ranks, end, low)
}

/// Up to which lead heaps are looked at.
const LARGEST_LEAD: u64 = 4096;

/// Whether heaps make all elements of U. A game of which this isn't said may have a smaller quotient.
pub(crate) fn makes_all(s: Shape, ranks: &[Rank]) -> bool
    ensures { IsTrue result → HasAllRulers (label_by s ranks.now) }
{
    let once = s.start.saturating_add(s.period);
    let end = once.saturating_add(s.period);
    let Some(t) = turning(s, ranks, end) else {
        return false;
    };
    let Some(w) = waiting(s, ranks, end) else {
        return false;
    };
    for low in 1..LARGEST_LEAD {
        if are_all_made(s, ranks, end, low, t, w) {
            return true;
        }
        if !has_tight(s, ranks, 1, end, low) {
            return false;
        }
    }
    false
}
