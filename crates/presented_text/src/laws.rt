//! What is read is what is spelled.
ghost use Rattle.std.specs.Prelude.{◌≡◌, ◌<◌, ◌++◌, ◌∷◌, ℕ, List, Some};
ghost use Rattle.presented_text.specs.Spelled.{spelled, IsSpellable};
ghost use Rattle.presented_text.specs.Read.{spelled_at};

/// What is read from left to right is spelled so. A word is read as it is spelled before a byte below that
/// of the digit 0, such as a space or a line's end. A word has one text, and a text is that of one word.
pub fn words_are_read()
    ensures takes { (bytes word rest : List ℕ) → spelled_at bytes ≡ Some (word, rest)
        → (bytes ≡ spelled word ++ rest) × IsSpellable word }
    ensures again { (word : List ℕ) (s : ℕ) (rest : List ℕ) → s < 48 → IsSpellable word
        → spelled_at (spelled word ++ s ∷ rest) ≡ Some (word, s ∷ rest) }
    ensures one { (v w : List ℕ) → IsSpellable v → IsSpellable w → spelled v ≡ spelled w → v ≡ w }
{}
