//! A code and its heaps have one presentation at most. Laws, each the contract of a function that does nothing.
ghost use Rattle.std.specs.Prelude.{◌≡◌, ◌≢◌, ◌↔◌, ◌<◌, ℕ, Bool, true, List, length};
ghost use Rattle.presentations.specs.declared.TheConstants.{LETTERS};
ghost use Rattle.presentations.specs.Vectors.{zeros, only, bump};
ghost use Rattle.presentations.specs.Congruences.{Related};
ghost use Rattle.normal_forms.specs.Reductions.{AreConvergent};
ghost use Rattle.normal_forms.specs.Forms.{IsIn, AreIn, IsStandard, IsNormalForm};
ghost use Rattle.presented_text.specs.Said.{PresentedSaid, IsInRanges};
ghost use Rattle.presented_text.specs.Spelling.{SpellsPresented};
ghost use Rattle.presented_claims.specs.Claims.{has_word};
ghost use Rattle.presented_claims.specs.Presents.{Presents};
ghost use Rattle.presented_forms.specs.Form.{AreReduced, AreInOrder, IsInForm};
ghost use Rattle.presented_forms.specs.Only.{IsLeast, IsOnly};

/// A reduced basis in order is determined by which words in its letters it relates: Buchberger.
pub fn reduced_bases_are_unique()
    ensures { (letters : ℕ) (R S : List (List ℕ × List ℕ))
        → AreConvergent LETTERS R → AreConvergent LETTERS S → AreIn letters R → AreIn letters S
        → AreReduced R → AreReduced S → AreInOrder R → AreInOrder S
        → ((u v : List ℕ) → length u ≡ LETTERS → length v ≡ LETTERS → IsIn letters u → IsIn letters v
        → Related LETTERS R u v ↔ Related LETTERS S u v)
        → R ≡ S }
{}

/// A letter is no product of earlier ones if it isn't among some words that have the empty one and, with each word, the
/// normal form of one earlier letter more.
pub fn closed_words_show_new_letters()
    ensures { (relations : List (List ℕ × List ℕ)) → AreConvergent LETTERS relations
        → (i : ℕ) (among : List ℕ → Bool) → among (zeros LETTERS) ≡ true
        → ((w : List ℕ) (j : ℕ) (u : List ℕ) → among w ≡ true → j < i
        → IsNormalForm LETTERS relations (bump w j) u → among u ≡ true)
        → IsStandard LETTERS relations (only LETTERS i 1) → among (only LETTERS i 1) ≢ true
        → (w : List ℕ) → length w ≡ LETTERS → IsIn i w → Related LETTERS relations w (only LETTERS i 1) → ⊥ }
{}

/// A code and its heaps have one presentation at most by the same letters that is right, and has the form that is asked
/// for and least cycles; and one by the least letters. So they have one text of it.
pub fn presentations_are_unique()
    ensures letters { (c d : PresentedSaid) → IsInRanges c → IsInRanges d → IsInForm c → IsInForm d
        → IsLeast c → IsLeast d → Presents c → Presents d
        → c.code ≡ d.code → ((n : ℕ) → has_word c n ≡ has_word d n) → c.letters ≡ d.letters → c ≡ d }
    ensures said { (c d : PresentedSaid) → IsInRanges c → IsInRanges d → IsInForm c → IsInForm d
        → IsOnly c → IsOnly d → Presents c → Presents d
        → c.code ≡ d.code → ((n : ℕ) → has_word c n ≡ has_word d n) → c ≡ d }
    ensures bytes { (a b : List ℕ) (c d : PresentedSaid) → SpellsPresented a c → SpellsPresented b d
        → IsInForm c → IsInForm d → IsOnly c → IsOnly d → Presents c → Presents d
        → c.code ≡ d.code → ((n : ℕ) → has_word c n ≡ has_word d n) → a ≡ b }
{}
