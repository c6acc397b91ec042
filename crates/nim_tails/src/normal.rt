//! Laws of normal play.

ghost use Rattle.std.specs.Prelude.{◌≡◌, ◌⊎◌, ◌↔◌, List, ℕ};
ghost use Rattle.misere_theory.specs.Games.{IsPosition};
ghost use Rattle.misere_theory.specs.Kinds.{IsHeapIn};
ghost use Rattle.nim_tails.specs.Normal.{IsNormalP, IsNormalN, nim_sum, AreNimValues};

/// Each position has one outcome of normal play.
pub fn normal_outcomes_are_determined()
    ensures either { (code X : List ℕ) → IsNormalP code X ⊎ IsNormalN code X }
    ensures not_both { (code X : List ℕ) → IsNormalP code X → IsNormalN code X → ⊥ }
{}

/// The theorem of Sprague and Grundy: the previous player wins exactly if the nim sum of the heaps is
/// 0, and each code gives its heaps nim values.
pub fn nim_sums_tell_normal_play()
    ensures told { (M : ℕ) (code : List ℕ) (G : ℕ → ℕ) (X : List ℕ)
        → AreNimValues M code G
        → IsPosition (IsHeapIn M) X
        → IsNormalP code X ↔ (nim_sum G X ≡ 0) }
    ensures sequence { (code : List ℕ) → (G : ℕ → ℕ) × AreNimValues 0 code G }
{}
