//! Words whose exponents may be large.
ghost use Rattle.std.specs.Prelude.{◌≡◌, ◌↔◌, ◌≤◌, ◌<◌, ℕ, IsTrue, slice_index};
ghost use Rattle.presentations.specs.declared.TheConstants.{LETTERS};
ghost use Rattle.presentations.specs.Vectors.{plus};
ghost use Rattle.label_players.specs.Wide.{AreSmall};

use normal_forms::Exponents;
use presentations::LETTERS;

/// A word: the exponents of a to z.
pub type WideWord = [u128; LETTERS];

/// The largest exponent of words that are multiplied: 2^96. The normal form of no position that fits into memory has a
/// larger one.
pub(crate) const LARGEST_EXPONENT: u128 = 79_228_162_514_264_337_593_543_950_336;

/// The word, with room for larger exponents.
pub(crate) fn widened(word: &Exponents) -> WideWord
    ensures same { result ≡ word.now }
    ensures small { (i : ℕ) → i < LETTERS → slice_index result i ≤ 65535 }
{
    let mut wide = [0u128; LETTERS];
    for i in 0..LETTERS {
        wide[i] = word[i] as u128;
    }
    wide
}

/// Whether no exponent is larger than [`LARGEST_EXPONENT`].
pub(crate) fn are_small(word: &WideWord) -> bool
    ensures { IsTrue result ↔ AreSmall word.now }
{
    for i in 0..LETTERS {
        if word[i] > LARGEST_EXPONENT {
            return false;
        }
    }
    true
}

/// The product of two words.
pub(crate) fn product(v: &WideWord, w: &WideWord) -> WideWord
    requires first { AreSmall v.now }
    requires second { AreSmall w.now }
    ensures { result ≡ plus v.now w.now }
{
    let mut sum = *v;
    for i in 0..LETTERS {
        sum[i] = v[i] + w[i];
    }
    sum
}
