//! The triples of a whole game in memory.
ghost use Rattle.std.specs.Prelude.{◌≡◌, ◌≤◌, ◌+◌, ◌*◌, ◌∷◌, slice_index};
ghost use Rattle.dominance.specs.Triples.{Triple, is_p, times, triple_of};
ghost use Rattle.dominance_text.specs.Said.{IsInRanges};
ghost use Rattle.dominance_text.specs.Labels.{label_of, listed_triple, raised};
ghost use Rattle.label_players.specs.Triples.{IsStopped, IsTripleOf};

use dominance_text::DominanceText;
use std::alloc::Allocator;

/// Where weights stop: 2^100. No lead is so large, and no position of 64 heaps is so heavy.
pub const LARGEST_SUM: u128 = 1_267_650_600_228_229_401_496_703_205_376;

/// A parity, a weight and a lead. A weight that is too large stops, but for its parity, at a number
/// above all leads: there it is as good.
#[derive(Clone, Copy)]
pub(crate) struct StoppedTriple {
    pub(crate) odd: bool,
    pub(crate) weight: u128,
    pub(crate) lead: u128,
}

/// The number, or if it is too large, one of its parity at which weights stop.
fn stopped(weight: u128) -> u128
    ensures same { IsStopped weight result }
    ensures small { result ≤ LARGEST_SUM + 1 }
{
    if weight < LARGEST_SUM {
        weight
    } else {
        LARGEST_SUM + weight % 2
    }
}

/// The triple of two positions together.
pub(crate) fn together(a: StoppedTriple, b: StoppedTriple) -> StoppedTriple
    requires first { a.weight ≤ LARGEST_SUM + 1 }
    requires second { b.weight ≤ LARGEST_SUM + 1 }
    ensures { (u v : Triple) → IsTripleOf u a → IsTripleOf v b → IsTripleOf (times u v) result }
{
    let lead = a.lead.saturating_sub(b.weight);
    StoppedTriple {
        odd: a.odd != b.odd,
        weight: stopped(a.weight + b.weight),
        lead: lead.max(b.lead.saturating_sub(a.weight)),
    }
}

/// Whether the triple is in the P-portion.
pub(crate) fn is_in_portion(a: StoppedTriple) -> bool
    ensures { (u : Triple) → IsTripleOf u a → result ≡ is_p u }
{
    if a.weight == 0 {
        a.odd
    } else if a.lead == 0 {
        !a.odd && a.weight % 2 == 0
    } else {
        !a.odd && a.weight % 2 == 1
    }
}

/// Number n of the list, from 1 on, and 0 where it has none.
fn number(list: &[u16], n: u64) -> u16
    ensures { result ≡ slice_index (0 ∷ list.now) n }
{
    if n == 0 {
        return 0;
    }
    list.get((n - 1) as usize).copied().unwrap_or(0)
}

/// The triple that stands at a place of the lists, with so much more weight, and lead if it has some.
fn listed<A: Allocator>(text: &DominanceText<A>, n: u64, more: u128) -> StoppedTriple
    requires { more ≤ 1208907372870555465154560 }
    ensures { IsTripleOf (raised more (listed_triple text.now n)) result }
{
    let lead = number(&text.leads, n) as u128;
    StoppedTriple {
        odd: number(&text.odd, n) == 1,
        weight: number(&text.weights, n) as u128 + more,
        lead: if lead == 0 { 0 } else { lead + more },
    }
}

/// The triple of the heap n.
fn triple_at<A: Allocator>(text: &DominanceText<A>, n: u64) -> StoppedTriple
    requires { IsInRanges text.now }
    ensures { IsTripleOf (label_of text.now n) result }
{
    let (start, period) = (text.start as u64, text.period as u64);
    if n < start {
        return listed(text, n, 0);
    }
    let past = n - start;
    let more = text.rise as u128 * (past / period) as u128;
    listed(text, start + past % period, more)
}

/// The triple of the position of these heaps.
pub(crate) fn triple_of<A: Allocator>(text: &DominanceText<A>, heaps: &[u64]) -> StoppedTriple
    requires { IsInRanges text.now }
    ensures { IsTripleOf (triple_of (label_of text.now) heaps.now) result }
{
    let mut all = StoppedTriple {
        odd: false,
        weight: 0,
        lead: 0,
    };
    for i in 0..heaps.len() {
        all = together(triple_at(text, heaps[heaps.len() - 1 - i]), all);
    }
    all
}
