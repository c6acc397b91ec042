//! What says of positions whether they are P.
ghost use Rattle.std.specs.Prelude.{◌≡◌, ℕ, Bool, List, IfSome};
ghost use Rattle.std.specs.List.Sorted.{IsPermutation};

/// Says of positions whether they are P, as far as its numbers go.
pub trait SaysOutcomes {
    /// It says P of these positions, and of no others.
    ghost are_said: { Self → (List ℕ → Bool) → Type 0 };

    /// Whether it says that the position of these heaps is P. `None` if it can't tell, as where numbers grow too large.
    fn is_said_p(&self, heaps: &[u64]) -> Option<bool>
        ensures { IfSome result (λ b. (says : List ℕ → Bool) → are_said self.now says → b ≡ says heaps.now) };

    /// The order of heaps doesn't matter.
    ghost in_any_order: { (it : Self) (says : List ℕ → Bool) → are_said it says
        → (X Y : List ℕ) → IsPermutation X Y → says X ≡ says Y };
}
