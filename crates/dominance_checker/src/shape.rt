//! The triples of all heaps, from those of the first.
ghost use Rattle.std.specs.Prelude.{◌≡◌, IfSome};
ghost use Rattle.dominance_checker.specs.Ranks.{triple_in, rank_at, raised_by, label_by};

use crate::rank::Rank;

/// From which heap on the ranks repeat, by what period, and by how much weights and leads rise with it.
#[derive(Clone, Copy, Debug, PartialEq, Eq)]
pub struct Shape {
    pub start: u64,
    pub period: u64,
    pub rise: u64,
}

/// So much more weight, and also more lead, unless there is none. `None` if numbers grow too large.
fn raised_by(r: u64, u: Rank) -> Option<Rank>
    ensures { IfSome result (λ v. triple_in v ≡ raised_by r (triple_in u)) }
{
    let weight = u.weight.checked_add(r)?;
    let lead = if u.lead == 0 {
        0
    } else {
        u.lead.checked_add(r)?
    };
    Some(Rank {
        odd: u.odd,
        weight,
        lead,
    })
}

/// Entry `n` of the list, if it has one.
fn entry(ranks: &[Rank], n: u64) -> Option<Rank>
    ensures { IfSome result (λ r. r ≡ rank_at ranks.now n) }
{
    match ranks.get(n as usize) {
        Some(r) => Some(*r),
        None => None,
    }
}

/// The rank of the heap n. `None` if numbers grow too large, or the list is too short.
pub(crate) fn rank_of(s: Shape, ranks: &[Rank], n: u64) -> Option<Rank>
    ensures { IfSome result (λ r. triple_in r ≡ label_by s ranks.now n) }
{
    if n < s.start {
        return entry(ranks, n);
    }
    if s.period == 0 {
        return None;
    }
    let past = n - s.start;
    let first = entry(ranks, s.start.checked_add(past % s.period)?)?;
    raised_by(s.rise.checked_mul(past / s.period)?, first)
}
