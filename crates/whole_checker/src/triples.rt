//! What the triples of heaps say of positions.
ghost use Rattle.std.specs.Prelude.{◌≡◌, List, ℕ};
ghost use Rattle.std.proofs.Common.{◌∙◌, sym};
ghost use Rattle.misere_theory.specs.Labels.{says_by};
ghost use Rattle.dominance.specs.Triples.{claim_by};
ghost use Rattle.dominance_checker.specs.Ranks.{label_by};
ghost use Rattle.whole_checker.specs.Orders.{in_any_order};

use dominance_checker::{Rank, Shape, is_said_p};
use outcome_rule::SaysOutcomes;

/// The triples of heaps.
#[derive(Clone, Copy)]
pub(crate) struct Triples<'a> {
    pub(crate) shape: Shape,
    pub(crate) ranks: &'a [Rank],
}

impl<'a> SaysOutcomes for Triples<'a> {
    ghost are_said = { λ it says. (X : List ℕ) → says X ≡ says_by (claim_by (label_by it.shape it.ranks.now)) X };

    fn is_said_p(&self, heaps: &[u64]) -> Option<bool> {
        is_said_p(self.shape, self.ranks, heaps)
    }

    ghost in_any_order = { λ it says same X Y p.
        same X ∙ in_any_order (label_by it.shape it.ranks.now) X Y p ∙ sym (same Y) };
}
