//! Triples in memory.
ghost use Rattle.std.specs.Prelude.{◌≡◌, ◌≤◌, ◌+◌, max, IfSome, IsTrue};
ghost use Rattle.dominance.specs.Triples.{times, is_p};
ghost use Rattle.dominance.specs.Tested.{AreApart, IsApartFromOdd};
ghost use Rattle.dominance_checker.specs.Ranks.{triple_in};

/// A parity, a weight and a lead: of a heap, or of a position.
#[derive(Clone, Copy, Debug, PartialEq, Eq)]
pub struct Rank {
    pub odd: bool,
    pub weight: u64,
    pub lead: u64,
}

/// The rank of the empty position.
pub(crate) const NOTHING: Rank = Rank {
    odd: false,
    weight: 0,
    lead: 0,
};

/// The larger number.
fn larger(a: u64, b: u64) -> u64
    ensures { result ≡ max a b }
{
    if a < b { b } else { a }
}

/// The rank of two positions together. `None` if the weight grows too large.
pub(crate) fn beside(u: Rank, v: Rank) -> Option<Rank>
    ensures { IfSome result (λ w. triple_in w ≡ times (triple_in u) (triple_in v)) }
{
    let weight = u.weight.checked_add(v.weight)?;
    let lead = larger(
        u.lead.saturating_sub(v.weight),
        v.lead.saturating_sub(u.weight),
    );
    Some(Rank {
        odd: u.odd != v.odd,
        weight,
        lead,
    })
}

/// Whether the rank is in the P-portion.
pub(crate) fn is_p(u: Rank) -> bool
    ensures { result ≡ is_p (triple_in u) }
{
    if u.weight == 0 {
        u.odd
    } else if u.lead == 0 {
        !u.odd && u.weight % 2 == 0
    } else {
        !u.odd && u.weight % 2 == 1
    }
}

/// Whether `u` has weight, or `v` is in the P-portion beside none of its parities.
fn is_apart_from_odd(u: Rank, v: Rank) -> bool
    ensures { IsTrue result → IsApartFromOdd (triple_in u) (triple_in v) }
{
    u.weight != 0
        || v.weight == 0
        || (if v.lead == 0 {
            v.weight % 2 == 1
        } else {
            v.weight % 2 == 0
        })
}

/// Whether the numbers differ by one at most.
fn are_near(a: u64, b: u64) -> bool
    ensures { IsTrue result → (a ≤ b + 1) × (b ≤ a + 1) }
{
    if a < b { b - a == 1 } else { a - b < 2 }
}

/// Whether no third rank takes both into the P-portion.
pub(crate) fn are_apart(u: Rank, v: Rank) -> bool
    ensures { IsTrue result → AreApart (triple_in u) (triple_in v) }
{
    if u.odd != v.odd {
        is_apart_from_odd(u, v) && is_apart_from_odd(v, u)
    } else {
        u.weight != v.weight && are_near(u.weight, v.weight) && are_near(u.lead, v.lead)
    }
}
