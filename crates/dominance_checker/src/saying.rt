//! What a claim says of a position.
ghost use Rattle.std.specs.Prelude.{◌≡◌, IfSome};
ghost use Rattle.misere_theory.specs.Labels.{says_by};
ghost use Rattle.dominance.specs.Triples.{claim_by, triple_of};
ghost use Rattle.dominance_checker.specs.Ranks.{triple_in, label_by};

use crate::rank::{NOTHING, Rank, beside, is_p};
use crate::shape::{Shape, rank_of};

/// The rank of the position of these heaps. `None` if numbers grow too large, or the list is too short.
#[tactic(auto, using(crate::proofs::Said::triple_taken))]
fn rank_of_heaps(s: Shape, ranks: &[Rank], heaps: &[u64]) -> Option<Rank>
    ensures { IfSome result (λ u. triple_in u ≡ triple_of (label_by s ranks.now) heaps.now) }
{
    let mut all = NOTHING;
    for n in heaps {
        all = beside(all, rank_of(s, ranks, *n)?)?;
    }
    Some(all)
}

/// Whether the claim says that the position of these heaps, each of at least 1 token, is P. `None` if numbers
/// grow too large, or `ranks` is too short.
pub fn is_said_p(s: Shape, ranks: &[Rank], heaps: &[u64]) -> Option<bool>
    ensures { IfSome result (λ b. b ≡ says_by (claim_by (label_by s ranks.now)) heaps.now) }
{
    let all = rank_of_heaps(s, ranks, heaps)?;
    Some(is_p(all))
}
