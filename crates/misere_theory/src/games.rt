//! Laws of positions, moves and outcomes.

ghost use Rattle.std.specs.Prelude.{◌≡◌, ◌⊎◌, ◌↔◌, ◌<◌, ◌≤◌, ◌++◌, List, ℕ, true, false, length, All, IsBitSet, IsPermutation};
ghost use Rattle.misere_theory.specs.Games.{digit, leaves_three, is_octal, HeapOption, Move, HeapMove, MultisetMove, IsP, IsN, IsHeap, IsPosition, Indistinguishable, measure};
ghost use Rattle.misere_theory.specs.Quotients.{Claim, Monoid, GivesElements, value};

/// Whether a code has bit 8 in some digit can be told. Octal codes don't, and by a code without it no
/// move leaves three heaps.
pub fn octal_codes_leave_two_heaps()
    ensures seen { (code : List ℕ) → (leaves_three code ≡ true)
        ↔ ((j : ℕ) × IsBitSet (digit code j) 3) }
    ensures octal { (code : List ℕ) → is_octal code ≡ true → leaves_three code ≡ false }
    ensures digits { (code : List ℕ) → (is_octal code ≡ true) ↔ All (λ d. d < 8) code }
    ensures two { (code : List ℕ) (n : ℕ) (H : List ℕ)
        → leaves_three code ≡ false
        → HeapOption code n H
        → length H ≤ 2 }
{}

/// Each position has one outcome, a move leads to a position, and it lowers the measure.
pub fn outcomes_are_determined()
    ensures either { (code X : List ℕ) → IsP code X ⊎ IsN code X }
    ensures not_both { (code X : List ℕ) → IsP code X → IsN code X → ⊥ }
    ensures falls { (code X Y : List ℕ) → Move code X Y → measure Y < measure X }
    ensures stays { (code X Y : List ℕ) → Move code X Y → IsPosition IsHeap X
        → IsPosition IsHeap Y }
{}

/// The order of a position's heaps does not matter: to its moves, its outcome and its value.
pub fn order_does_not_matter()
    ensures moves { (code X Y Z : List ℕ) → Move code X Y → IsPermutation Y Z
        → MultisetMove code X Z }
    ensures back { (code X Z : List ℕ) → MultisetMove code X Z → (Y : List ℕ) × Move code X Y
        × IsPermutation Y Z }
    ensures outcome { (code X Y : List ℕ) → IsPermutation X Y → IsP code X → IsP code Y }
    ensures value { (c : Claim) (X Y : List ℕ)
        → Monoid c.order c.times
        → GivesElements IsHeap c
        → IsPosition IsHeap X
        → IsPermutation X Y
        → value c X ≡ value c Y }
{}

/// A move of a heap to what is left of it leads to one position, whatever the order of its heaps.
pub fn heap_moves_lead_to_one_position()
    ensures { (code X : List ℕ) (n : ℕ) (H Y Z : List ℕ)
        → HeapMove code X n H Y → HeapMove code X n H Z → IsPermutation Y Z }
{}

/// A move of a sum is a move of one part.
pub fn sums_move_in_one_part()
    ensures parts { (code X Y Z : List ℕ) → Move code (X ++ Y) Z
        → ((U : List ℕ) × Move code X U × (Z ≡ U ++ Y))
        ⊎ ((U : List ℕ) × Move code Y U × (Z ≡ X ++ U)) }
    ensures left { (code X U Y : List ℕ) → Move code X U → Move code (X ++ Y) (U ++ Y) }
    ensures right { (code X Y U : List ℕ) → Move code Y U → Move code (X ++ Y) (X ++ U) }
{}

/// Indistinguishability is an equivalence that sums respect, and the order of the parts of a sum
/// does not matter to it.
pub fn sums_respect_indistinguishability()
    ensures itself { (code X : List ℕ) → Indistinguishable IsHeap code X X }
    ensures turned { (code X Y : List ℕ) → Indistinguishable IsHeap code X Y
        → Indistinguishable IsHeap code Y X }
    ensures onward { (code X Y Z : List ℕ) → Indistinguishable IsHeap code X Y
        → Indistinguishable IsHeap code Y Z → Indistinguishable IsHeap code X Z }
    ensures sums { (code X U Y V : List ℕ)
        → IsPosition IsHeap U
        → IsPosition IsHeap Y
        → Indistinguishable IsHeap code X U
        → Indistinguishable IsHeap code Y V
        → Indistinguishable IsHeap code (X ++ Y) (U ++ V) }
    ensures parts { (code X Y : List ℕ) → Indistinguishable IsHeap code (X ++ Y) (Y ++ X) }
{}
