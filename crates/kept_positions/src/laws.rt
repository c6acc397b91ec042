//! What the test of numbers comes to.
ghost use Rattle.std.specs.Prelude.{◌≡◌, ℕ, Bool, true, List};
ghost use Rattle.misere_theory.specs.Parts.{IsPart};
ghost use Rattle.misere_theory.specs.Labels.{LabelClaim, AreLabels};
ghost use Rattle.kept_positions.specs.Kept.{AreNeverBad};
ghost use Rattle.kept_positions.specs.Numbers.{LabelTables, ClassTurns, KeptPositions, AreFamiliesTested, AreFoundTested};
ghost use Rattle.kept_positions.specs.Numbering.{Numbering, AreTablesOf, AreTurnsOf};

/// If tables say what a claim over labels does, and positions that are found pass the test, then no position of
/// heaps with options, but the empty one, is bad beside nothing.
pub fn tested_positions_are_never_bad<Label>()
    ensures { (labels : Label → Bool) (heaps : ℕ → Bool) (code : List ℕ) (c : LabelClaim Label)
        (b : Numbering Label) (t : LabelTables) (k : KeptPositions)
        → IsPart (λ n. heaps n ≡ true) code
        → AreLabels (λ x. labels x ≡ true) c.one c.times
        → ((n : ℕ) → heaps n ≡ true → labels (c.label n) ≡ true)
        → AreTablesOf (λ x. labels x ≡ true) (λ n. heaps n ≡ true) code c b t
        → AreFoundTested t k
        → AreNeverBad (λ n. heaps n ≡ true) code c }
{}

/// The same where heaps are free at some positions, which then stand for infinitely many.
pub fn tested_families_are_never_bad<Label>()
    ensures { (labels : Label → Bool) (heaps : ℕ → Bool) (code : List ℕ) (c : LabelClaim Label)
        (b : Numbering Label) (t : LabelTables) (u : ClassTurns) (k : KeptPositions)
        → IsPart (λ n. heaps n ≡ true) code
        → AreLabels (λ x. labels x ≡ true) c.one c.times
        → ((n : ℕ) → heaps n ≡ true → labels (c.label n) ≡ true)
        → AreTablesOf (λ x. labels x ≡ true) (λ n. heaps n ≡ true) code c b t
        → AreTurnsOf (λ x. labels x ≡ true) c b t u
        → AreFamiliesTested t u k
        → AreNeverBad (λ n. heaps n ≡ true) code c }
{}
