//! What a closure that is done says of all positions.
ghost use Rattle.std.specs.Prelude.{◌≡◌, ℕ, List, Contains, length};
ghost use Rattle.misere_theory.specs.Games.{IsPosition};
ghost use Rattle.misere_theory.specs.Kinds.{IsHeapIn, IsPeriodicIn, bound_in};
ghost use Rattle.misere_theory.specs.Pairs as theory;
ghost use Rattle.misere_theory.specs.Quotients.{Claim};
ghost use Rattle.pair_closure.specs.Positions.{IsClaimOver, IsClosedOver, kept};
ghost use Rattle.pair_closure.specs.Turns.{State};

use misere_theory::pairs::closed_pairs_cover;

/// Where the pairs were those of the heaps 1 to B, the pairs that a closure holds once it is done
/// cover that of every position of a game of the kind M, with any number of heaps of any size that
/// counts: one that is held has the position's value, and some of its options' values, at least one
/// where there is one.
pub fn done_closures_cover()
    ensures { (M : ℕ) (code : List ℕ) (c : Claim) (k start period : ℕ) (s : State)
        → IsClosedOver s
        → IsClaimOver code c s.table s.heaps
        → IsPeriodicIn M code c k start period
        → length s.heaps ≡ bound_in M code k start period
        → (X : List ℕ) → IsPosition (IsHeapIn M) X
        → (p : theory.Pair) × Contains (kept s) p × theory.Covers code c p X }
{
    closed_pairs_cover();
}
