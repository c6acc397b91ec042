//! What shows that relations present a monoid, and that their text is read as them.
ghost use Rattle.std.specs.Prelude.{◌≡◌, ◌<◌, ◌≤◌, ℕ, List, All, length, codes};
ghost use Rattle.monoid_table.specs.Grids.{Grid, times_in};
ghost use Rattle.misere_theory.specs.Quotients.{Monoid};
ghost use Rattle.presentations.specs.declared.TheConstants.{LETTERS, MOST_RELATIONS};
ghost use Rattle.presentations.specs.declared.read.Relation.{Relation};
ghost use Rattle.presentations.specs.Text.{SpellsPresentation};
ghost use Rattle.relations.specs.Presented.{AreWords, PairsHold, Present};
ghost use Rattle.relations.specs.declared.text.Notation.TheVariants.{Plain};
ghost use Rattle.relations.specs.Printed.{ArePrintable, relations_text};

/// Relations that hold in a monoid present it, where each element has a word such that one
/// generator more leads to a word that they relate to that of the product.
pub fn words_present()
    ensures { (table : Grid) (elements : List ℕ) (pairs : List (List ℕ × List ℕ))
        (word : ℕ → List ℕ)
        → Monoid table.order (times_in table)
        → All (λ e. e < table.order) elements
        → PairsHold table elements pairs
        → AreWords table elements pairs word
        → Present table elements pairs }
{}

/// Relations between words in the first letters, printed with one space between each two, spell the
/// presentation that they are.
pub fn texts_spell()
    ensures { (n : ℕ) (relations : List Relation) → n ≤ LETTERS
        → 0 < length relations → length relations ≤ MOST_RELATIONS
        → ArePrintable n relations
        → SpellsPresentation (relations_text Plain n (codes " ") relations) relations }
{}
