//! Whether heaps tell all triples apart.
ghost use Rattle.std.specs.Prelude.{IsTrue};
ghost use Rattle.dominance.specs.Quotient.{IsTurning, IsWaiting, HasRulers};
ghost use Rattle.dominance_checker.specs.Ranks.{label_by};
ghost use Rattle.dominance_checker.specs.Passed.{HasLead};

use crate::rank::Rank;
use crate::shape::{Shape, rank_of};

/// Whether the heap is odd and has no weight.
pub(crate) fn is_turning(s: Shape, ranks: &[Rank], n: u64) -> bool
    ensures { IsTrue result → IsTurning (label_by s ranks.now) n }
{
    match rank_of(s, ranks, n) {
        None => false,
        Some(u) => n != 0 && u.odd && u.weight == 0 && u.lead == 0,
    }
}

/// Whether the heap has the weight 1 and never rules.
pub(crate) fn is_waiting(s: Shape, ranks: &[Rank], n: u64) -> bool
    ensures { IsTrue result → IsWaiting (label_by s ranks.now) n }
{
    match rank_of(s, ranks, n) {
        None => false,
        Some(u) => n != 0 && u.weight == 1 && u.lead == 0,
    }
}

/// Whether the heap has a lead.
fn has_lead(s: Shape, ranks: &[Rank], n: u64) -> bool
    ensures { IsTrue result → HasLead s ranks.now n }
{
    match rank_of(s, ranks, n) {
        None => false,
        Some(u) => u.lead != 0,
    }
}

/// A heap that turns the parity, below `end`. What is found is a hint, and so is what the next two find.
pub(crate) fn turning(s: Shape, ranks: &[Rank], end: u64) -> Option<u64> {
    for n in 1..end {
        if is_turning(s, ranks, n) {
            return Some(n);
        }
    }
    None
}

/// A heap that waits, below `end`.
pub(crate) fn waiting(s: Shape, ranks: &[Rank], end: u64) -> Option<u64> {
    for n in 1..end {
        if is_waiting(s, ranks, n) {
            return Some(n);
        }
    }
    None
}

/// A heap with a lead, from the start on and below `end`.
fn ruling(s: Shape, ranks: &[Rank], end: u64) -> Option<u64> {
    for n in s.start..end {
        if has_lead(s, ranks, n) {
            return Some(n);
        }
    }
    None
}

/// Whether the heap t turns the parity, w waits, and n, from the start on, has a lead.
fn are_rulers(s: Shape, ranks: &[Rank], t: u64, w: u64, n: u64) -> bool
    ensures { IsTrue result → HasRulers (label_by s ranks.now) }
{
    if s.period == 0 || s.rise == 0 || s.start == 0 || n < s.start {
        return false;
    }
    if !is_turning(s, ranks, t) || !is_waiting(s, ranks, w) {
        return false;
    }
    has_lead(s, ranks, n)
}

/// Whether heaps tell all triples apart.
pub(crate) fn has_rulers(s: Shape, ranks: &[Rank]) -> bool
    ensures { IsTrue result → HasRulers (label_by s ranks.now) }
{
    let end = s.start.saturating_add(s.period);
    let Some(t) = turning(s, ranks, end) else {
        return false;
    };
    let Some(w) = waiting(s, ranks, end) else {
        return false;
    };
    let Some(n) = ruling(s, ranks, end) else {
        return false;
    };
    are_rulers(s, ranks, t, w, n)
}
