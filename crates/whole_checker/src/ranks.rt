//! The numbers of a text, a rank for each heap.
ghost use Rattle.std.specs.Prelude.{◌≡◌, ℕ, IfOk, length};
ghost use Rattle.dominance_checker.specs.Ranks.{rank_at, triple_in};
ghost use Rattle.dominance_text.specs.Labels.{listed_triple};

use allocation::Memory;
use dominance_checker::Rank;
use dominance_text::DominanceText;
use std::alloc::Allocator;

/// The rank of each heap up to the end of the first period, from that of the heap 0 on, which is none.
#[tactic(auto, using(crate::proofs::Listed::first_rank, crate::proofs::Listed::one_more, crate::proofs::Listed::all_ranks))]
pub(crate) fn ranks<A: Allocator, B: Allocator>(
    alloc: B,
    text: &DominanceText<A>,
) -> Result<Vec<Rank, B>, Memory>
    requires weights { length text.now.weights ≡ length text.now.odd }
    requires leads { length text.now.leads ≡ length text.now.odd }
    ensures { IfOk result (λ v. (n : ℕ) → triple_in (rank_at v.items n) ≡ listed_triple text.now n) }
{
    let mut all = Vec::new(alloc);
    all.push(Rank {
        odd: false,
        weight: 0,
        lead: 0,
    })?;
    for i in 0..text.odd.len() {
        all.push(Rank {
            odd: text.odd[i] == 1,
            weight: text.weights[i] as u64,
            lead: text.leads[i] as u64,
        })?;
    }
    Ok(all)
}
