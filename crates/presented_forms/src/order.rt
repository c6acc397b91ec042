//! Words in one another, and in order.
ghost use Rattle.std.specs.Prelude.{◌≡◌, ◌<◌, ◌↔◌, ℕ, IsTrue, MatchOption, slice_index};
ghost use Rattle.presentations.specs.declared.TheConstants.{LETTERS};
ghost use Rattle.relations.specs.Bases.{Divides, Precedes};
ghost use Rattle.normal_forms.specs.Forms.{IsStandard};
ghost use Rattle.presented_forms.specs.Form.{AreRising, ComesEarlier, IsLastLetter};

use normal_forms::{Exponents, Rule, letter_count};
use presentations::LETTERS;

/// Whether the first word is in the second one.
pub(crate) fn is_in(v: &Exponents, w: &Exponents) -> bool
    ensures { IsTrue result ↔ Divides LETTERS v.now w.now }
{
    for i in 0..LETTERS {
        if v[i] > w[i] {
            return false;
        }
    }
    true
}

/// Whether no left word is in the word.
pub(crate) fn is_standard(rules: &[Rule], word: &Exponents) -> bool
    ensures { IsTrue result → IsStandard LETTERS rules.now word.now }
{
    rules.iter().all(|rule| !is_in(&rule.left, word))
}

/// Whether the first word comes before the second one: by fewer letters in all, and of as many, by more
/// of the first letter of which they differ.
fn comes_before(v: &Exponents, w: &Exponents) -> bool
    ensures { IsTrue result → Precedes LETTERS v.now w.now }
{
    let (less, more) = (letter_count(v), letter_count(w));
    if less != more {
        return less < more;
    }
    for i in 0..LETTERS {
        if v[i] != w[i] {
            return v[i] > w[i];
        }
    }
    false
}

/// Whether each word comes before the next one.
pub(crate) fn are_rising(words: &[Exponents]) -> bool
    ensures { IsTrue result → AreRising words.now }
{
    for k in 1..words.len() {
        if !comes_before(&words[k - 1], &words[k]) {
            return false;
        }
    }
    true
}

/// The last letter of a word, if it has one.
fn last_letter(word: &Exponents) -> Option<usize>
    ensures { MatchOption result ((i : ℕ) → i < LETTERS → slice_index word.now i ≡ 0)
        (λ i. IsLastLetter word.now i) }
{
    for k in 0..LETTERS {
        let i = LETTERS - 1 - k;
        if word[i] > 0 {
            return Some(i);
        }
    }
    None
}

/// Whether the first word comes before the second one by their last letters, and if these are the same, by
/// the order of words.
pub(crate) fn comes_earlier(v: &Exponents, w: &Exponents) -> bool
    ensures { IsTrue result → ComesEarlier v.now w.now }
{
    let Some(i) = last_letter(v) else {
        return true;
    };
    let Some(k) = last_letter(w) else {
        return true;
    };
    i < k || (i == k && comes_before(v, w))
}
