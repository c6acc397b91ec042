//! Cells of words: finitely many words that stand for all standard ones. Laws, each the contract of a function that does
//! nothing.
//!
//! Each letter has a threshold and a period ([`specs/Folds`]). Exponents beyond the threshold are taken back by whole
//! periods. A word that this leaves alone is a *class*, and stands for its *cell*: all words that differ from it by whole
//! periods of letters of which it has as many as the threshold.
ghost use Rattle.std.specs.Prelude.{◌≡◌, ◌<◌, ℕ, Bool, true, List};
ghost use Rattle.presentations.specs.Vectors.{zeros, bump};
ghost use Rattle.normal_forms.specs.Forms.{IsElementWord};
ghost use Rattle.presented_claims.specs.Claims.{cycled};
ghost use Rattle.presented_claims.specs.Folds.{HavePeriods, AreFiner};

/// The fold of an element is an element. And a finer fold first makes no difference, so that words of one cell are in a
/// portion together if its cycles are coarser.
pub fn folds_are_elements()
    ensures elements { (n letters : ℕ) (relations : List (List ℕ × List ℕ)) (folds : List (ℕ × ℕ)) (w : List ℕ)
        → IsElementWord n letters relations w → IsElementWord n letters relations (cycled folds w) }
    ensures finer { (folds cycles : List (ℕ × ℕ)) (w : List ℕ) → AreFiner folds cycles
        → cycled cycles (cycled folds w) ≡ cycled cycles w }
{}

/// A list of classes that has the empty word, and each class with one letter more if that is a class, has all of them.
pub fn classes_come_letter_by_letter()
    ensures { (n letters : ℕ) (relations : List (List ℕ × List ℕ)) (folds : List (ℕ × ℕ)) (has : List ℕ → Bool)
        → HavePeriods folds → has (zeros n) ≡ true
        → ((v : List ℕ) (i : ℕ) → has v ≡ true → i < letters → i < n
        → IsElementWord n letters relations (bump v i) → cycled folds (bump v i) ≡ bump v i
        → has (bump v i) ≡ true)
        → (w : List ℕ) → IsElementWord n letters relations w → cycled folds w ≡ w → has w ≡ true }
{}
