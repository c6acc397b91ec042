//! When the words of cells are told apart, though there are infinitely many: a context tells two cells, or it leads any
//! two different words of them to lighter ones that are different still. A law, the contract of a function that does
//! nothing.
ghost use Rattle.std.specs.Prelude.{◌≡◌, ◌+◌, ◌≤◌, ℕ, Bool, List, length};
ghost use Rattle.normal_forms.specs.Reductions.{AreConvergent};
ghost use Rattle.normal_forms.specs.Forms.{NormalForms, IsElementWord, claim_by, product_by};
ghost use Rattle.kept_positions.specs.Telling.{AreToldOrLowered};
ghost use Rattle.presented_claims.specs.Claims.{cycled};
ghost use Rattle.presented_claims.specs.Folds.{HavePeriods, AreAbove};
ghost use Rattle.presented_claims.specs.Led.{weight_of, IsLed, AreSeparated};

/// A context that leads a cell takes all of its words to words of one fold, that of the word to which it leads the class.
pub fn led_cells_have_one_fold()
    ensures { (n letters : ℕ) (relations : List (List ℕ × List ℕ)) → AreConvergent n relations
        → (F : NormalForms n relations) (tops folds : List (ℕ × ℕ)) → length folds ≤ n → AreAbove tops relations
        → HavePeriods folds → (weights a z : List ℕ)
        → IsElementWord n letters relations a → length z ≡ n
        → (led : IsLed n F.form tops folds weights a z)
        → (x : List ℕ) → IsElementWord n letters relations x → cycled folds x ≡ a
        → cycled tops (product_by F.form x z) ≡ cycled tops led.to }
{}

/// If each two classes are separated, so are all words: by a context at once, or behind some that make the two lighter.
pub fn separated_cells_are_told()
    ensures { (n letters : ℕ) (relations : List (List ℕ × List ℕ)) → AreConvergent n relations
        → (F : NormalForms n relations) (word : ℕ → List ℕ) (portion : List ℕ → Bool)
        (tops folds : List (ℕ × ℕ)) → length folds ≤ n → AreAbove tops relations → HavePeriods folds
        → (weights : List ℕ)
        → ((a b : List ℕ) → IsElementWord n letters relations a → IsElementWord n letters relations b
        → cycled folds a ≡ a → cycled folds b ≡ b
        → AreSeparated n letters relations F portion tops folds weights a b)
        → AreToldOrLowered (IsElementWord n letters relations) (claim_by n F.form word portion)
        (λ x y. weight_of weights x + weight_of weights y) }
{}
