//! Laws of transition pairs: sums, the bound on heaps, closed lists, and how many pairs there are.
//!
//! M is the kind of the game: 0 for the whole one, else the last heap that counts.

ghost use Rattle.std.specs.Prelude.{◌≡◌, ◌⊎◌, ◌↔◌, ◌<◌, ◌≤◌, ◌+◌, ◌*◌, ◌^◌, ◌++◌, ◌∷◌, List, ℕ, true, false, Contains};
ghost use Rattle.std.specs.List.Sorted.{IsNonDecreasing};
ghost use Rattle.misere_theory.specs.Games.{HeapOption, leaves_three, IsHeapUpTo, IsPosition};
ghost use Rattle.misere_theory.specs.Pairs.{Pair, IsSamePair, IsClosed, KeptObey, ElementsObey, heap_bound, SameHeapPair, Covers, IsPairOf, IsSmallSplit};
ghost use Rattle.misere_theory.specs.Kinds.{IsHeapIn, IsPeriodicIn, bound_in};
ghost use Rattle.misere_theory.specs.Plays.{LeftBefore};
ghost use Rattle.misere_theory.specs.Quotients.{Claim, Monoid, AllApart, Represents, RuleHolds, RuleFails, HeapOptionValue, OptionValue, SumOptionValue, ReachesMoreThan, GivesElements, value};

/// The pair of a sum is the product of the pairs.
pub fn pairs_of_sums_are_products()
    ensures { (M : ℕ) (code : List ℕ) (c : Claim) (X Y : List ℕ)
        → Monoid c.order c.times
        → GivesElements (IsHeapIn M) c
        → IsPosition (IsHeapIn M) X
        → IsPosition (IsHeapIn M) Y
        → (value c (X ++ Y) ≡ c.times (value c X) (value c Y))
        × ((z : ℕ) → OptionValue code c (X ++ Y) z ↔ SumOptionValue code c X Y z) }
{}

/// Every heap that counts has the pair of one of the heaps 1 to B, which count themselves.
pub fn heaps_are_bounded()
    ensures shown { (M : ℕ) (code : List ℕ) (c : Claim) (k start period : ℕ)
        → IsPeriodicIn M code c k start period
        → (n : ℕ) → IsHeapIn M n
        → (m : ℕ) × IsHeapUpTo (bound_in M code k start period) m × SameHeapPair code c n m }
    ensures counts { (M : ℕ) (code : List ℕ) (k start period m : ℕ)
        → IsHeapUpTo (bound_in M code k start period) m
        → IsHeapIn M m }
    ensures whole { (code : List ℕ) (k start period : ℕ)
        → bound_in 0 code k start period ≡ heap_bound code k start period }
    ensures part { (M : ℕ) (code : List ℕ) (k start period : ℕ)
        → 0 < M
        → bound_in M code k start period ≡ M }
{}

/// Of the splits of a heap those whose parts but the largest are below start + period show all
/// values, and each of the others comes after one of them with its value. Where a move may leave
/// three heaps, that takes the laws of a monoid: two small parts may have to change places.
pub fn small_parts_are_enough()
    ensures values { (M : ℕ) (code : List ℕ) (c : Claim) (k start period : ℕ)
        → IsPeriodicIn M code c k start period
        → M < start + period
        → Monoid c.order c.times
        → GivesElements (IsHeapIn M) c
        → (n : ℕ) (H : List ℕ) → (0 < M → n ≤ M)
        → HeapOption code n H
        → (L : List ℕ) × HeapOption code n L × IsSmallSplit (start + period) L
        × (value c L ≡ value c H) }
    ensures first { (M : ℕ) (code : List ℕ) (c : Claim) (k start period : ℕ)
        → IsPeriodicIn M code c k start period
        → M < start + period
        → (leaves_three code ≡ true → Monoid c.order c.times × GivesElements (IsHeapIn M) c)
        → (n : ℕ) (H : List ℕ) → (0 < M → n ≤ M)
        → HeapOption code n H
        → IsNonDecreasing H
        → (L : List ℕ) × HeapOption code n L × IsSmallSplit (start + period) L
        × (value c L ≡ value c H) × ((L ≡ H) ⊎ LeftBefore L H) }
{}

/// A closed list of kept pairs over the heaps 1 to B covers the pair of every position.
pub fn closed_pairs_cover()
    ensures { (M : ℕ) (code : List ℕ) (c : Claim) (k start period : ℕ) (kept : List Pair)
        → Monoid c.order c.times
        → GivesElements (IsHeapIn M) c
        → IsPeriodicIn M code c k start period
        → IsClosed code c (IsHeapUpTo (bound_in M code k start period)) kept
        → (X : List ℕ) → IsPosition (IsHeapIn M) X → (p : Pair) × Contains kept p × Covers code c p X }
{}

/// What a checker tests makes the claim the misère quotient.
pub fn closed_pairs_represent()
    ensures { (M : ℕ) (code : List ℕ) (c : Claim) (k start period : ℕ) (kept : List Pair)
        → Monoid c.order c.times
        → GivesElements (IsHeapIn M) c
        → IsPeriodicIn M code c k start period
        → IsClosed code c (IsHeapUpTo (bound_in M code k start period)) kept
        → KeptObey c kept
        → ElementsObey code c (IsHeapUpTo (bound_in M code k start period))
        → ((x : ℕ) → x < c.order → (X : List ℕ) × IsPosition (IsHeapIn M) X × (value c X ≡ x))
        → AllApart c
        → Represents (IsHeapIn M) code c }
{}

/// The same tests over the heaps up to M make the claim the partial quotient of these heaps.
pub fn closed_pairs_represent_partly()
    ensures { (M : ℕ) (code : List ℕ) (c : Claim) (kept : List Pair)
        → Monoid c.order c.times
        → GivesElements (IsHeapUpTo M) c
        → IsClosed code c (IsHeapUpTo M) kept
        → KeptObey c kept
        → ElementsObey code c (IsHeapUpTo M)
        → ((x : ℕ) → x < c.order → (X : List ℕ) × IsPosition (IsHeapUpTo M) X × (value c X ≡ x))
        → AllApart c
        → Represents (IsHeapUpTo M) code c }
{}

/// Where a test of the closure fails, the rule fails at the position of the pair that was tested.
pub fn failed_tests_show_positions()
    ensures outside { (M : ℕ) (code : List ℕ) (c : Claim) (p : Pair) (X : List ℕ)
        → IsPosition (IsHeapIn M) X
        → IsPairOf code c p X
        → c.portion p.value ≡ false
        → (x : ℕ) → Contains p.options x
        → ((y : ℕ) → Contains p.options y → c.portion y ≡ false)
        → IsPosition (IsHeapIn M) X × RuleFails code c X }
    ensures inside { (M : ℕ) (code : List ℕ) (c : Claim) (p : Pair) (X : List ℕ)
        → IsPosition (IsHeapIn M) X
        → IsPairOf code c p X
        → c.portion p.value ≡ true
        → ((x : ℕ) → Contains p.options x → ⊥)
        → IsPosition (IsHeapIn M) X × RuleFails code c X }
    ensures element { (M : ℕ) (code : List ℕ) (c : Claim) (n h : ℕ) (Y : List ℕ)
        → Monoid c.order c.times
        → GivesElements (IsHeapIn M) c
        → IsPosition (IsHeapIn M) (n ∷ Y)
        → HeapOptionValue code c n h
        → c.portion (c.times (c.phi n) (value c Y)) ≡ true
        → c.portion (c.times h (value c Y)) ≡ true
        → IsPosition (IsHeapIn M) (n ∷ Y) × RuleFails code c (n ∷ Y) }
{}

/// Positions have at most order * 2 ^ order different pairs.
pub fn reach_is_bounded()
    ensures { (M : ℕ) (code : List ℕ) (c : Claim) (limit : ℕ)
        → Monoid c.order c.times
        → GivesElements (IsHeapIn M) c
        → ReachesMoreThan (IsHeapIn M) code c limit
        → limit < c.order * 2 ^ c.order }
{}

/// The rule holds at every position, or it fails at one.
pub fn rule_holds_or_fails_somewhere()
    ensures { (M : ℕ) (code : List ℕ) (c : Claim) (k start period : ℕ)
        → Monoid c.order c.times
        → GivesElements (IsHeapIn M) c
        → IsPeriodicIn M code c k start period
        → ((X : List ℕ) → IsPosition (IsHeapIn M) X → RuleHolds code c X)
        ⊎ ((X : List ℕ) × IsPosition (IsHeapIn M) X × RuleFails code c X) }
{}

/// Different pairs, each exactly that of a position, show that positions have more than any smaller
/// number of pairs.
pub fn different_pairs_are_counted()
    ensures { (M : ℕ) (code : List ℕ) (c : Claim) (n : ℕ) (pair : ℕ → Pair) (word : ℕ → List ℕ)
        → ((i : ℕ) → i < n → IsPairOf code c (pair i) (word i))
        → ((i : ℕ) → i < n → IsPosition (IsHeapIn M) (word i))
        → ((i j : ℕ) → i < j → j < n → IsSamePair (pair i) (pair j) → ⊥)
        → (limit : ℕ) → limit < n → ReachesMoreThan (IsHeapIn M) code c limit }
{}
