//! Whether each letter is the word of its heap.
ghost use Rattle.std.specs.Prelude.{◌≡◌, ◌<◌, ◌≤◌, ◌↔◌, ◌-◌, ℕ, IsTrue, length, slice_index};
ghost use Rattle.presentations.specs.declared.TheConstants.{LETTERS};
ghost use Rattle.presentations.specs.Vectors.{only};
ghost use Rattle.presented_claims.specs.Claims.{listed_word};
ghost use Rattle.presented_forms.specs.Form.{AreNamed, IsNamedBy};

use normal_forms::Exponents;
use presentations::LETTERS;
use presented_text::PresentedText;
use std::alloc::Allocator;

/// The exponent of letter `k` in the word of letter `i`.
fn exponent(i: usize, k: usize) -> u16
    requires { k < LETTERS }
    ensures { result ≡ slice_index (only LETTERS i 1) k }
{
    if k == i { 1 } else { 0 }
}

/// Whether the word is letter `i`.
fn is_letter(word: &Exponents, i: usize) -> bool
    ensures { IsTrue result → word.now ≡ only LETTERS i 1 }
{
    for k in 0..LETTERS {
        if word[k] != exponent(i, k) {
            return false;
        }
    }
    true
}

/// Whether letter `i` is the word of the heap `n` of the list.
fn is_named_by<A: Allocator>(text: &PresentedText<A>, i: usize, n: u16) -> bool
    ensures { IsTrue result → IsNamedBy text.now i n }
{
    if n == 0 {
        return false;
    }
    match text.words.get((n - 1) as usize) {
        Some(Some(word)) => is_letter(word, i),
        _ => false,
    }
}

/// Whether the numbers rise.
fn are_rising(numbers: &[u16]) -> bool
    ensures { IsTrue result → (i : ℕ) → 0 < i → i < length numbers.now
        → slice_index numbers.now (i - 1) < slice_index numbers.now i }
{
    for i in 1..numbers.len() {
        if numbers[i - 1] >= numbers[i] {
            return false;
        }
    }
    true
}

/// Whether each letter is the word of its heap.
fn are_words_of_heaps<A: Allocator>(text: &PresentedText<A>) -> bool
    ensures { IsTrue result → (i : ℕ) → i < length text.now.letters
        → IsNamedBy text.now i (slice_index text.now.letters i) }
{
    for i in 0..text.letters.len() {
        if !is_named_by(text, i, text.letters[i]) {
            return false;
        }
    }
    true
}

/// Whether each letter is the word of its heap, and these rise.
pub(crate) fn are_named<A: Allocator>(text: &PresentedText<A>) -> bool
    ensures { IsTrue result → AreNamed text.now }
{
    are_rising(text.letters.as_slice()) && are_words_of_heaps(text)
}
