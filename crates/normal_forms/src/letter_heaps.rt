//! Each element of a monoid of words is the label of a position, if each letter is a heap's word.
ghost use Rattle.std.specs.Prelude.{◌≡◌, ℕ, ◌<◌, ◌≤◌, Bool, true, List, length, slice_index};
ghost use Rattle.misere_theory.specs.Games.{IsPosition};
ghost use Rattle.misere_theory.specs.Labels.{label_of};
ghost use Rattle.presentations.specs.Vectors.{only};
ghost use Rattle.normal_forms.specs.Reductions.{AreConvergent};
ghost use Rattle.normal_forms.specs.Forms.{NormalForms, IsElementWord, claim_by};

/// Each standard word in the letters is the label of a position: it has a heap for each letter of the word.
pub fn letters_reach_elements()
    ensures { (n : ℕ) (relations : List (List ℕ × List ℕ)) → AreConvergent n relations
        → (F : NormalForms n relations) (word : ℕ → List ℕ) (portion : List ℕ → Bool)
        (heaps : ℕ → Bool) (letters : List ℕ) → length letters ≤ n
        → ((i : ℕ) → i < length letters → (heaps (slice_index letters i) ≡ true)
        × (word (slice_index letters i) ≡ only n i 1))
        → (x : List ℕ) → IsElementWord n (length letters) relations x
        → (X : List ℕ) × IsPosition (λ h. heaps h ≡ true) X
        × (label_of (claim_by n F.form word portion) X ≡ x) }
{}
