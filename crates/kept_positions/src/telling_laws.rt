//! What the test of classes comes to.
ghost use Rattle.std.specs.Prelude.{◌≡◌, Bool, true, List};
ghost use Rattle.misere_theory.specs.Labels.{LabelClaim};
ghost use Rattle.kept_positions.specs.Telling.{AreToldOrLowered};
ghost use Rattle.kept_positions.specs.Numbers.{LabelTables};
ghost use Rattle.kept_positions.specs.Numbering.{Numbering};
ghost use Rattle.kept_positions.specs.Told.{AreTold};
ghost use Rattle.kept_positions.specs.Marks.{AreMarksOf, AreAlone};

/// If marks say which labels of a claim are in its portion, each class has one label, and classes are told apart,
/// then so are the labels.
pub fn told_classes_are_told<Label>()
    ensures { (labels : Label → Bool) (c : LabelClaim Label) (b : Numbering Label) (t : LabelTables)
        (marks : List Bool)
        → AreMarksOf (λ x. labels x ≡ true) c b t marks
        → AreAlone (λ x. labels x ≡ true) b
        → AreTold t marks
        → AreToldOrLowered (λ x. labels x ≡ true) c (λ _ _. 0) }
{}
