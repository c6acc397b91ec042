//! The period that the fewest heaps show.
ghost use Rattle.std.specs.Prelude.{◌↔◌, IsNone, IsTrue, IfSome};
ghost use Rattle.quotient_search.specs.Evidence.{IsShown, IsSoonestPeriod};
ghost use Rattle.quotient_search.specs.Periods.{HasNoPeriod};

use crate::repeats_from;
use octal_code::Code;

/// Whether there are as many heaps as show the period of the code's game: one fewer than the bound
/// B up to which the heaps show the pair of every heap. That is 2 · (start + period) + k - 1 for
/// the last digit dk, or 3 · (start + period) + k - 1 where some digit has bit 8. The pairs of an
/// element and the options' elements repeat then too, since of two or three parts of a larger heap
/// one is so large that a period can be taken off it.
pub fn is_shown(code: &Code, heaps: &[u16], start: usize, period: usize) -> bool
    ensures { IsTrue result ↔ IsShown code.now heaps.now start period }
{
    let parts = if code.leaves_three() { 3 } else { 2 };
    let needed = start
        .saturating_add(period)
        .saturating_mul(parts)
        .saturating_add(code.last() as usize);
    period > 0 && needed <= heaps.len() + 1
}

/// The period, and the heap from which on the elements repeat, as (start, period), that the fewest
/// heaps show, of those that stand at least twice. `None` exactly where none does.
pub fn soonest_period(heaps: &[u16]) -> Option<(usize, usize)>
    ensures found { IfSome result (λ r. IsSoonestPeriod heaps.now r.0 r.1) }
    ensures none { IsNone result ↔ HasNoPeriod heaps.now }
{
    let mut best: Option<(usize, usize)> = None;
    let mut least = usize::MAX;
    for period in 1..heaps.len() / 2 + 1 {
        let start = repeats_from(heaps, period);
        if start <= heaps.len() + 1 - 2 * period && start + period < least {
            best = Some((start, period));
            least = start + period;
        }
    }
    best
}
