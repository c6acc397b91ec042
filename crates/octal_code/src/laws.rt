//! What the tests of a digit's bits say.
ghost use Rattle.std.specs.Prelude.{◌≡◌, ◌<◌, ◌≤◌, ◌↔◌, ℕ, List, IsBitSet, true};
ghost use Rattle.misere_theory.specs.Games.{digit};
ghost use Rattle.octal_code.specs.Bits.{allows, takes_all, leaves_one};
ghost use Rattle.octal_code.specs.declared.leaving.Leaving.TheVariants.{TwoHeaps, ThreeHeaps};

/// The tests, of which the lists of options are made, say what the theory says of a digit's bits.
pub fn digits_say_what_stays()
    ensures nothing { (code : List ℕ) (n j : ℕ) → (takes_all code n j ≡ true)
        ↔ ((1 ≤ j) × (n ≡ j) × IsBitSet (digit code j) 0) }
    ensures one { (code : List ℕ) (n j : ℕ) → (leaves_one code n j ≡ true)
        ↔ ((1 ≤ j) × (j < n) × IsBitSet (digit code j) 1) }
    ensures two { (code : List ℕ) (j : ℕ) → (allows code j TwoHeaps ≡ true)
        ↔ IsBitSet (digit code j) 2 }
    ensures three { (code : List ℕ) (j : ℕ) → (allows code j ThreeHeaps ≡ true)
        ↔ IsBitSet (digit code j) 3 }
{}
