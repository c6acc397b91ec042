//! Laws of claims: when one is a monoid, when it predicts outcomes, when it is the quotient.

ghost use Rattle.std.specs.Prelude.{◌≡◌, ◌⊎◌, ◌↔◌, ◌<◌, ◌≤◌, List, ℕ, Bool, true};
ghost use Rattle.misere_theory.specs.Games.{IsP, IsHeap, IsHeapUpTo, IsPosition, Move};
ghost use Rattle.misere_theory.specs.Kinds.{IsHeapIn};
ghost use Rattle.misere_theory.specs.Parts.{IsInfinite};
ghost use Rattle.misere_theory.specs.Certificates.{Certificate, Accepted, kind_of};
ghost use Rattle.misere_theory.specs.Quotients.{Claim, Monoid, LawFails, AllApart, Represents, SameQuotient, RuleHolds, RuleFails, GivesElements, value};

/// A product that stays below the order is a commutative monoid exactly where no law fails.
pub fn laws_fail_or_hold()
    ensures never_both { (order : ℕ) (times : ℕ → ℕ → ℕ) → Monoid order times → LawFails order times
        → ⊥ }
    ensures no_failure { (order : ℕ) (times : ℕ → ℕ → ℕ)
        → 0 < order
        → ((x y : ℕ) → x < order → y < order → times x y < order)
        → (LawFails order times → ⊥)
        → Monoid order times }
{}

/// The portion predicts every outcome exactly where it obeys the local rule at every position.
pub fn rule_predicts()
    ensures rule { (M : ℕ) (code : List ℕ) (c : Claim)
        → ((X : List ℕ) → IsPosition (IsHeapIn M) X → RuleHolds code c X)
        → (X : List ℕ) → IsPosition (IsHeapIn M) X → IsP code X ↔ (c.portion (value c X) ≡ true) }
    ensures back { (M : ℕ) (code : List ℕ) (c : Claim)
        → ((X : List ℕ) → IsPosition (IsHeapIn M) X → IsP code X ↔ (c.portion (value c X) ≡ true))
        → (X : List ℕ) → IsPosition (IsHeapIn M) X → RuleHolds code c X }
    ensures decided { (code : List ℕ) (c : Claim) (X : List ℕ)
        → RuleHolds code c X ⊎ RuleFails code c X }
    ensures fails { (code : List ℕ) (c : Claim) (X : List ℕ) → RuleHolds code c X
        → RuleFails code c X → ⊥ }
{}

/// Where the rule fails at a position, the portion mispredicts its outcome or that of one of its
/// options.
pub fn failed_rules_mispredict()
    ensures { (code : List ℕ) (c : Claim) (X : List ℕ)
        → RuleFails code c X
        → IsP code X ↔ (c.portion (value c X) ≡ true)
        → ((Y : List ℕ) → Move code X Y → IsP code Y ↔ (c.portion (value c Y) ≡ true))
        → ⊥ }
{}

/// The rule at all positions of heaps up to M makes the partial quotient.
pub fn rule_represents_partly()
    ensures { (M : ℕ) (code : List ℕ) (c : Claim)
        → Monoid c.order c.times
        → GivesElements (IsHeapUpTo M) c
        → ((X : List ℕ) → IsPosition (IsHeapUpTo M) X → RuleHolds code c X)
        → ((x : ℕ) → x < c.order → (X : List ℕ) × IsPosition (IsHeapUpTo M) X × (value c X ≡ x))
        → AllApart c
        → Represents (IsHeapUpTo M) code c }
{}

/// Of the whole game all heaps count, of a part those up to its last, and the misère quotient is the
/// one of these heaps.
pub fn kinds_say_which_heaps_count()
    ensures whole { (n : ℕ) → IsHeapIn 0 n ↔ IsHeap n }
    ensures part { (M n : ℕ) → 0 < M → IsHeapIn M n ↔ IsHeapUpTo M n }
    ensures whole_quotient { (code : List ℕ) (c : Claim) → Represents (IsHeapIn 0) code c
        ↔ Represents IsHeap code c }
    ensures partial_quotient { (M : ℕ) (code : List ℕ) (c : Claim) → 0 < M
        → Represents (IsHeapIn M) code c ↔ Represents (IsHeapUpTo M) code c }
{}

/// A game has one misère quotient, up to the numbering of its elements.
pub fn quotients_are_unique()
    ensures { (M : ℕ) (code : List ℕ) (c d : Claim)
        → Represents (IsHeapIn M) code c
        → Represents (IsHeapIn M) code d
        → (f : ℕ → ℕ) × (g : ℕ → ℕ) × SameQuotient (IsHeapIn M) c d f g }
{}

/// If some heaps of a code have an infinite misère quotient, no finite monoid is the quotient of a game
/// that has these heaps: so no full certificate of the code is accepted, and no partial one that goes as
/// far as they do.
pub fn infinite_parts_have_no_finite_quotient()
    ensures whole { (code : List ℕ) (d : Claim) → IsInfinite IsHeap code → Represents IsHeap code d → ⊥ }
    ensures claims { (M : ℕ) (code : List ℕ) (heaps : ℕ → Bool) (d : Claim)
        → IsInfinite (λ n. heaps n ≡ true) code
        → ((n : ℕ) → heaps n ≡ true → IsHeapIn M n)
        → Represents (IsHeapIn M) code d → ⊥ }
    ensures certificates { (M : ℕ) (heaps : ℕ → Bool) (d : Certificate)
        → IsInfinite (λ n. heaps n ≡ true) d.code
        → ((n : ℕ) → heaps n ≡ true → IsHeapUpTo M n)
        → (kind_of d ≡ 0) ⊎ (M ≤ kind_of d)
        → Accepted d → ⊥ }
{}
