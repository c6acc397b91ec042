//! Presentations of whole games: words of heaps that repeat, and how many of them have to be tested.
ghost use Rattle.std.specs.Prelude.{◌≡◌, ◌≤◌, ◌<◌, ◌↔◌, ℕ, List, All, is_some, true};
ghost use Rattle.misere_theory.specs.Games.{IsPosition};
ghost use Rattle.misere_theory.specs.Kinds.{IsHeapIn};
ghost use Rattle.misere_theory.specs.Labels.{BreaksRule, says_by};
ghost use Rattle.misere_theory.specs.Parts.{IsInfinite};
ghost use Rattle.presentations.specs.declared.TheConstants.{LETTERS};
ghost use Rattle.normal_forms.specs.Forms.{NormalForms};
ghost use Rattle.presented_text.specs.declared.TheConstants.{MOST_HEAPS};
ghost use Rattle.presented_text.specs.Said.{PresentedSaid, IsInRanges};
ghost use Rattle.presented_claims.specs.Claims.{claim_of};
ghost use Rattle.presented_claims.specs.Presents.{Presents};
ghost use Rattle.presented_forms.specs.Form.{IsInForm};
ghost use Rattle.presented_tables.specs.Tested.{HasWord};
ghost use Rattle.presented_tables.specs.Faults.{LeavesOut};
ghost use Rattle.presented_checker.specs.Unrolled.{unrolled, enough_heaps};

/// A presentation of a whole game is right if it is right of as many heaps as are enough.
pub fn enough_heaps_show_all()
    ensures { (c : PresentedSaid) (B : ℕ) → IsInRanges c → 0 < c.period → enough_heaps c ≤ B
        → Presents (unrolled c B) → Presents c }
{}

/// A whole game in which each heap of the list has a word is the game of all heaps.
pub fn whole_lists_name_all_heaps()
    ensures { (c : PresentedSaid) → IsInRanges c → 0 < c.period → All (λ w. is_some w ≡ true) c.words
        → (n : ℕ) → HasWord c n ↔ IsHeapIn 0 n }
{}

/// With the words of more heaps in its list a presentation keeps its ranges, and the form that is asked for.
pub fn longer_lists_keep_the_form()
    ensures ranges { (c : PresentedSaid) (B : ℕ) → IsInRanges c → 1 ≤ B → B ≤ MOST_HEAPS
        → IsInRanges (unrolled c B) }
    ensures enough { (c : PresentedSaid) → IsInRanges c → c.heaps ≤ enough_heaps c }
    ensures form { (c : PresentedSaid) (B : ℕ) → IsInRanges c → c.heaps ≤ B → IsInForm c → IsInForm (unrolled c B) }
{}

/// What is true of the heaps up to B is true of a whole game: that infinitely many positions are told apart, that an
/// option leaves the heaps, and that the rule of misère outcomes is broken at a position.
pub fn whole_games_have_their_parts()
    ensures infinite { (c : PresentedSaid) (B : ℕ) → IsInfinite (HasWord (unrolled c B)) c.code
        → IsInfinite (HasWord c) c.code }
    ensures leaves { (c : PresentedSaid) (B n : ℕ) → LeavesOut (unrolled c B) n → LeavesOut c n }
    ensures position { (c : PresentedSaid) (B : ℕ) (X : List ℕ) → IsPosition (HasWord (unrolled c B)) X
        → IsPosition (HasWord c) X }
    ensures breaks { (c : PresentedSaid) (B : ℕ) (forms : NormalForms LETTERS c.relations) (X : List ℕ)
        → IsPosition (HasWord (unrolled c B)) X
        → BreaksRule c.code (says_by (claim_of (unrolled c B) forms)) X
        → BreaksRule c.code (says_by (claim_of c forms)) X }
{}
