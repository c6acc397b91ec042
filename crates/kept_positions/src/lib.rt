//! Claims over labels of any commutative monoid: what has to be tested of finitely many positions, so that the
//! labels are the misère quotient, finite or infinite; and the tests, in numbers.
//!
//! | Folder | What stands there |
//! |---|---|
//! | `specs/Kept` | positions that are bad beside a label, covered ones, and which ones are kept |
//! | `specs/Telling` | when labels are told apart, if a context alone doesn't tell |
//! | `specs/Presented` | all that has to be tested |
//! | `specs/Told`, `specs/Marks` | which classes a label tells apart, and when marks say which labels are in a portion |
//! | `src/lib`, `src/laws`, `src/telling_laws` | the laws, each the contract of a function that does nothing |
//! | `src/finding`, `src/tested`, .. | the rule by kept positions: an unproved search, and a proved test of what it found |
//! | `src/contexts`, `src/telling` | an unproved search for few labels that tell all classes apart, and the test of them |
#![tactic(auto)]

ghost use Rattle.std.specs.Prelude.{◌≡◌, ◌↔◌, ◌++◌, ℕ, Bool, true, List};
ghost use Rattle.misere_theory.specs.Games.{IsPosition};
ghost use Rattle.misere_theory.specs.Parts.{IsPart};
ghost use Rattle.misere_theory.specs.Labels.{LabelClaim, AreLabels, label_of, says_by, PredictsOutcomes, RepresentsBy};
ghost use Rattle.kept_positions.specs.Kept.{IsBadBeside, AreKept, AreNeverBad};
ghost use Rattle.kept_positions.specs.Telling.{AreToldOrLowered};
ghost use Rattle.kept_positions.specs.Presented.{AreTestedLabels};

mod contexts;
mod covers;
mod entries;
mod families;
mod finding;
mod laws;
mod listed;
mod marks;
mod reads;
mod slots;
mod tables;
mod telling;
mod telling_laws;
mod tested;
mod testing;

pub use finding::NotFound;
pub use laws::{tested_families_are_never_bad, tested_positions_are_never_bad};
pub use tables::{ClassTurns, KeptPositions, LabelTables};
pub use telling::{NotTold, told_apart};
pub use telling_laws::told_classes_are_told;
pub use tested::{tested_families, tested_positions};

/// A sum is bad beside a label exactly if each of its two parts is bad beside the product of this label with
/// the other part's: so all that one part has to know of the other is its label.
pub fn sums_are_bad_in_both_parts<Label>()
    ensures { (labels : Label → Bool) (heaps : ℕ → Bool) (code : List ℕ) (c : LabelClaim Label)
        → IsPart (λ n. heaps n ≡ true) code
        → AreLabels (λ x. labels x ≡ true) c.one c.times
        → ((n : ℕ) → heaps n ≡ true → labels (c.label n) ≡ true)
        → (x : Label) (X Y : List ℕ) → labels x ≡ true
        → IsPosition (λ n. heaps n ≡ true) X → IsPosition (λ n. heaps n ≡ true) Y
        → IsBadBeside code c x (X ++ Y)
        ↔ (IsBadBeside code c (c.times x (label_of c Y)) X
        × IsBadBeside code c (c.times x (label_of c X)) Y) }
{}

/// If positions are kept, none but the empty one is bad beside nothing: a lightest one would have a part that
/// is covered, and so wouldn't be a lightest one.
pub fn kept_positions_are_enough<Label>()
    ensures { (labels : Label → Bool) (heaps : ℕ → Bool) (code : List ℕ) (c : LabelClaim Label)
        (weight : ℕ → ℕ) (kept : List ℕ → Bool)
        → IsPart (λ n. heaps n ≡ true) code
        → AreLabels (λ x. labels x ≡ true) c.one c.times
        → ((n : ℕ) → heaps n ≡ true → labels (c.label n) ≡ true)
        → AreKept (λ x. labels x ≡ true) (λ n. heaps n ≡ true) code c weight (λ Z. kept Z ≡ true)
        → AreNeverBad (λ n. heaps n ≡ true) code c }
{}

/// Claims that pass their tests are right of each position of their heaps.
pub fn tested_labels_predict<Label>()
    ensures { (labels : Label → Bool) (heaps : ℕ → Bool) (code : List ℕ) (c : LabelClaim Label)
        → AreTestedLabels (λ x. labels x ≡ true) (λ n. heaps n ≡ true) code c
        → PredictsOutcomes (λ n. heaps n ≡ true) code (says_by c) }
{}

/// If the labels are told apart, too, or taken to others that are nearer to being told, and each is that of a
/// position, then they are the misère quotient.
pub fn tested_labels_are_the_quotient<Label>()
    ensures { (labels : Label → Bool) (heaps : ℕ → Bool) (code : List ℕ) (c : LabelClaim Label)
        (height : Label → Label → ℕ)
        → AreTestedLabels (λ x. labels x ≡ true) (λ n. heaps n ≡ true) code c
        → AreToldOrLowered (λ x. labels x ≡ true) c height
        → ((x : Label) → labels x ≡ true
        → (X : List ℕ) × IsPosition (λ n. heaps n ≡ true) X × (label_of c X ≡ x))
        → RepresentsBy (λ x. labels x ≡ true) (λ n. heaps n ≡ true) code c }
{}
