//! The threshold and the period of a letter.
ghost use Rattle.std.specs.Prelude.{◌≡◌, ◌<◌, length};
ghost use Rattle.presented_claims.specs.Folds.{at_letter};

use presented_text::LetterCycle;

/// The threshold and the period of letter `i`.
pub(crate) fn cycle_at(folds: &[LetterCycle], i: usize) -> LetterCycle
    requires { i < length folds.now }
    ensures { result ≡ at_letter folds.now i }
{
    folds[i]
}
