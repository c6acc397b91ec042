//! Periods of lists of elements.
ghost use Rattle.std.specs.Prelude.{◌≤◌, ◌<◌, ◌+◌, ◌↔◌, ℕ, length, IfSome, IsNone};
ghost use Rattle.quotient_search.specs.Periods.{HasNoPeriod, IsLeastPeriod, RepeatsFrom};

/// The least period of the entries e1, e2, .., and the least start from which on they have it: over
/// the starts s and periods p from 1 on for which e(i + p) = e(i) from s to the end, and which show
/// the period twice, the least p, and then the least s. `None` exactly where there is no such pair.
/// It takes no memory.
pub fn least_period(entries: &[u16]) -> Option<(usize, usize)>
    ensures found { IfSome result (λ r. IsLeastPeriod entries.now r.0 r.1) }
    ensures none { IsNone result ↔ HasNoPeriod entries.now }
{
    for period in 1..entries.len() / 2 + 1 {
        let start = repeats_from(entries, period);
        if start <= entries.len() + 1 - 2 * period {
            return Some((start, period));
        }
    }
    None
}

/// The first entry from which on the entries repeat after so many, up to the last one. It takes no
/// memory.
pub fn repeats_from(entries: &[u16], period: usize) -> usize
    ensures starts { (1 ≤ result) × (result ≤ length entries.now + 1) }
    ensures repeats { RepeatsFrom entries.now result period }
    ensures earliest { (t : ℕ) → 1 ≤ t → RepeatsFrom entries.now t period → result ≤ t }
{
    let mut start = entries.len().saturating_sub(period);
    while start > 0 && entries[start - 1] == entries[start - 1 + period] {
        start -= 1;
    }
    start + 1
}
