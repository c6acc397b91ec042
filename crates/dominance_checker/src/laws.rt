//! The law that ties other spellings of a claim to its ranks.
ghost use Rattle.std.specs.Prelude.{◌≡◌, ◌+◌, ◌<◌, ◌≤◌, ℕ, List};
ghost use Rattle.dominance.specs.Triples.{Triple};
ghost use Rattle.dominance.specs.Finite.{IsRaised};
ghost use Rattle.dominance_checker.specs.declared.rank.Rank.{Rank};
ghost use Rattle.dominance_checker.specs.declared.shape.Shape.{Shape};
ghost use Rattle.dominance_checker.specs.Ranks.{triple_in, rank_at, label_by};

/// Triples that repeat from the start on, up to the rise, are those that the ranks of the first heaps say.
pub fn claims_are_by_ranks()
    ensures { (s : Shape) (ranks : List Rank) (label : ℕ → Triple)
        → 1 ≤ s.period
        → ((n : ℕ) → n < s.start + s.period → label n ≡ triple_in (rank_at ranks n))
        → ((n : ℕ) → s.start ≤ n → IsRaised s.rise (label n) (label (s.period + n)))
        → label_by s ranks ≡ label }
{}
