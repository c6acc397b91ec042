//! What it says of a quotient that it is tame.
ghost use Rattle.std.specs.Prelude.{◌≡◌, ℕ};
ghost use Rattle.misere_theory.specs.Quotients.{Monoid};
ghost use Rattle.misere_theory.specs.Certificates.{Certificate, InRanges, times_of};
ghost use Rattle.descriptions.specs.Tame.{IsTame, AreIsomorphic};

/// For each n there is one bipartite monoid T_n at most, up to the numbering of its elements; and a
/// quotient is T_n for one n at most.
pub fn tame_quotients_are_unique()
    ensures monoid { (n : ℕ) (c d : Certificate) → InRanges c → InRanges d
        → Monoid c.order (times_of c) → Monoid d.order (times_of d)
        → IsTame c n → IsTame d n → AreIsomorphic c d }
    ensures number { (c : Certificate) (m n : ℕ) → IsTame c m → IsTame c n → m ≡ n }
{
    certificate::claims_agree();
}
