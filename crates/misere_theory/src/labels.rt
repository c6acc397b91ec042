//! Laws of claims over labels, and of what is said of positions.
//!
//! M is the kind of the game: 0 for the whole one, else the last heap that counts.

ghost use Rattle.std.specs.Prelude.{◌≡◌, ◌⊎◌, ◌↔◌, ◌<◌, List, ℕ, Bool, true};
ghost use Rattle.misere_theory.specs.Games.{IsP, IsPosition, Move};
ghost use Rattle.misere_theory.specs.Kinds.{IsHeapIn};
ghost use Rattle.misere_theory.specs.Labels.{PredictsOutcomes, ObeysRule, BreaksRule, RepresentsBy, over_elements};
ghost use Rattle.misere_theory.specs.Parts.{IsPart};
ghost use Rattle.misere_theory.specs.Quotients.{Claim, Represents};

/// What is said of the positions of some heaps is right of each exactly if it obeys the rule of misère
/// outcomes at each. At a position the rule is obeyed or broken, and where it is broken a wrong thing is
/// said of the position or of one of its options.
pub fn obeyed_rules_predict()
    ensures right { (code : List ℕ) (heaps : ℕ → Bool) (says : List ℕ → Bool)
        → IsPart (λ n. heaps n ≡ true) code
        → ((X : List ℕ) → IsPosition (λ n. heaps n ≡ true) X → ObeysRule code says X)
        → PredictsOutcomes (λ n. heaps n ≡ true) code says }
    ensures whole { (M : ℕ) (code : List ℕ) (says : List ℕ → Bool)
        → ((X : List ℕ) → IsPosition (IsHeapIn M) X → ObeysRule code says X)
        → PredictsOutcomes (IsHeapIn M) code says }
    ensures back { (M : ℕ) (code : List ℕ) (says : List ℕ → Bool)
        → PredictsOutcomes (IsHeapIn M) code says
        → (X : List ℕ) → IsPosition (IsHeapIn M) X → ObeysRule code says X }
    ensures either { (code : List ℕ) (says : List ℕ → Bool) (X : List ℕ)
        → ObeysRule code says X ⊎ BreaksRule code says X }
    ensures never_both { (code : List ℕ) (says : List ℕ → Bool) (X : List ℕ)
        → ObeysRule code says X → BreaksRule code says X → ⊥ }
    ensures wrong { (code : List ℕ) (says : List ℕ → Bool) (X : List ℕ)
        → BreaksRule code says X
        → IsP code X ↔ (says X ≡ true)
        → ((Y : List ℕ) → Move code X Y → IsP code Y ↔ (says Y ≡ true))
        → ⊥ }
{}

/// A finite quotient is one by labels, which are its elements.
pub fn quotients_are_over_labels()
    ensures { (M : ℕ) (code : List ℕ) (c : Claim)
        → Represents (IsHeapIn M) code c
        ↔ RepresentsBy (λ x. x < c.order) (IsHeapIn M) code (over_elements c) }
{}
