//! Laws of misère play that is normal play beyond some heap.

ghost use Rattle.std.specs.Prelude.{◌≡◌, ◌≢◌, ◌⊎◌, ◌↔◌, ◌<◌, ◌≤◌, bit_xor, List, ℕ};
ghost use Rattle.misere_theory.specs.Games.{IsCode, IsHeap, IsPosition, IsP};
ghost use Rattle.misere_theory.specs.Kinds.{IsHeapIn};
ghost use Rattle.misere_theory.specs.Quotients.{Claim, Monoid, Represents};
ghost use Rattle.nim_tails.specs.Normal.{nim_sum, AreNimValues};
ghost use Rattle.nim_tails.specs.NormalTails.{IsInLeastIdeal, IsRegular, IsNormalAbove, IsRegularKernel, IsNormalKernel, AreNimSums, HasTwoOutcomes, IsLongEnough};

/// The multiples of the identity of a regular kernel are the kernel.
pub fn regular_kernels_are_kernels()
    ensures { (c : Claim) (e x : ℕ)
        → Monoid c.order c.times
        → IsRegularKernel c e
        → IsInLeastIdeal c x ↔ ((x < c.order) × (c.times e x ≡ x)) }
{}

/// If the kernel of the quotient of the heaps to M is normal play, and the heaps above N are in it up
/// to an M that is large enough, then each position of the whole game that has a heap above N, or whose
/// value is in the kernel, has the same outcome in misère play as in normal play: it is P exactly if
/// its nim sum is 0. The nim sequence may be any.
pub fn tails_are_normal_play()
    ensures outcomes { (M N : ℕ) (code : List ℕ) (c : Claim) (e : ℕ) (G nim : ℕ → ℕ)
        → IsCode code
        → Represents (IsHeapIn M) code c
        → IsNormalKernel M code c e G nim
        → ((n : ℕ) → N < n → n ≤ M → IsInLeastIdeal c (c.phi n))
        → IsLongEnough M code N
        → IsNormalAbove M code c N }
    ensures nim_sums { (M N : ℕ) (code : List ℕ) (c : Claim) (G : ℕ → ℕ) (X : List ℕ)
        → IsNormalAbove M code c N
        → AreNimValues 0 code G
        → IsPosition IsHeap X
        → IsRegular M c N X
        → IsP code X ↔ (nim_sum G X ≡ 0) }
{}

/// A regular kernel isn't normal play if an element has two nim sums, or an element of the kernel other
/// than its identity has the nim sum 0.
pub fn other_kernels_have_two_outcomes()
    ensures sums { (M : ℕ) (code : List ℕ) (c : Claim) (e : ℕ) (G nim : ℕ → ℕ) (n x : ℕ)
        → Represents (IsHeapIn M) code c
        → IsRegularKernel c e
        → AreNimValues M code G
        → AreNimSums M c G nim
        → IsHeapIn M n
        → x < c.order
        → nim (c.times (c.phi n) x) ≢ bit_xor (G n) (nim x)
        → HasTwoOutcomes M code c }
    ensures one { (M : ℕ) (code : List ℕ) (c : Claim) (e : ℕ) (G nim : ℕ → ℕ) (x : ℕ)
        → Represents (IsHeapIn M) code c
        → IsRegularKernel c e
        → AreNimValues M code G
        → AreNimSums M c G nim
        → x < c.order
        → c.times e x ≡ x
        → nim x ≡ 0
        → x ≢ e
        → HasTwoOutcomes M code c }
{}
