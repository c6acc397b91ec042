//! What holds of normal forms, for callers' proofs.
ghost use Rattle.std.specs.Prelude.{◌≡◌, ◌↔◌, ℕ, Bool, List, length, All, Contains};
ghost use Rattle.misere_theory.specs.Labels.{AreLabels, label_of};
ghost use Rattle.presentations.specs.Vectors.{plus, zeros};
ghost use Rattle.presentations.specs.Congruences.{Related};
ghost use Rattle.normal_forms.specs.Reductions.{AreOriented, AreConvergent};
ghost use Rattle.normal_forms.specs.Forms.{IsNormalForm, NormalForms, IsElementWord, IsIn, AreIn, HavePowers, product_by, word_of, claim_by};

/// Each word has a normal form, since each reduction leads to a word that comes before.
pub fn words_have_forms()
    ensures { (n : ℕ) (relations : List (List ℕ × List ℕ)) → AreOriented n relations
        → NormalForms n relations }
{}

/// Where the critical pairs join, words are related exactly if they have the same normal form. Newman,
/// On theories with a combinatorial definition of "equivalence".
pub fn forms_are_unique()
    ensures one { (n : ℕ) (relations : List (List ℕ × List ℕ)) → AreConvergent n relations
        → (w u v : List ℕ) → length w ≡ n → IsNormalForm n relations w u
        → IsNormalForm n relations w v → u ≡ v }
    ensures related { (n : ℕ) (relations : List (List ℕ × List ℕ)) → AreConvergent n relations
        → (F : NormalForms n relations) (u v : List ℕ) → length u ≡ n → length v ≡ n
        → Related n relations u v ↔ (F.form u ≡ F.form v) }
{}

/// The standard words in the first letters are a commutative monoid, in which a product is the normal
/// form of the product of words, and the label of a position that of its word.
pub fn elements_are_a_monoid()
    ensures labels { (n letters : ℕ) (relations : List (List ℕ × List ℕ))
        → AreConvergent n relations → AreIn letters relations → (F : NormalForms n relations)
        → AreLabels (IsElementWord n letters relations) (zeros n) (product_by F.form) }
    ensures forms { (n letters : ℕ) (relations : List (List ℕ × List ℕ))
        → AreIn letters relations → (F : NormalForms n relations) (w : List ℕ) → length w ≡ n
        → IsIn letters w → IsElementWord n letters relations (F.form w) }
    ensures products { (n : ℕ) (relations : List (List ℕ × List ℕ)) → AreConvergent n relations
        → (F : NormalForms n relations) (u v : List ℕ) → length u ≡ n → length v ≡ n
        → F.form (plus u v) ≡ product_by F.form (F.form u) (F.form v) }
    ensures positions { (n : ℕ) (relations : List (List ℕ × List ℕ)) → AreConvergent n relations
        → (F : NormalForms n relations) (word : ℕ → List ℕ) (portion : List ℕ → Bool)
        (X : List ℕ) → All (λ h. length (word h) ≡ n) X
        → label_of (claim_by n F.form word portion) X ≡ F.form (word_of n word X) }
{}

/// Where each letter has a power among the left words, there are finitely many elements.
pub fn powers_bound()
    ensures { (n letters : ℕ) (relations : List (List ℕ × List ℕ)) → HavePowers n letters relations
        → (words : List (List ℕ))
        × ((w : List ℕ) → IsElementWord n letters relations w → Contains words w) }
{}
