//! Whether relations are a reduced basis in order.
ghost use Rattle.std.specs.Prelude.{◌≡◌, ◌≢◌, ◌<◌, ℕ, List, IsTrue, All, length, slice_index_or};
ghost use Rattle.presentations.specs.declared.TheConstants.{LETTERS};
ghost use Rattle.relations.specs.Bases.{Divides};
ghost use Rattle.normal_forms.specs.Forms.{IsStandard};
ghost use Rattle.presented_forms.specs.Form.{AreInOrder, AreReduced, IsStandardIfSome};

use crate::order::{comes_earlier, is_in, is_standard};
use normal_forms::{Exponents, Rule};

/// Whether each relation's left word comes before that of the next one.
pub(crate) fn are_in_order(rules: &[Rule]) -> bool
    ensures { IsTrue result → AreInOrder rules.now }
{
    for k in 1..rules.len() {
        let (one, other) = (&rules[k - 1], &rules[k]);
        if !comes_earlier(&one.left, &other.left) {
            return false;
        }
    }
    true
}

/// Whether all right words are standard.
fn are_rights_standard(rules: &[Rule]) -> bool
    ensures { IsTrue result → All (λ r. IsStandard LETTERS rules.now r.1) rules.now }
{
    rules.iter().all(|rule| is_standard(rules, &rule.right))
}

/// Whether no other left word is in that of relation `k`.
fn is_left_least(rules: &[Rule], k: usize) -> bool
    requires { k < length rules.now }
    ensures { IsTrue result → (i : ℕ) (d : List ℕ × List ℕ) → i < length rules.now → i ≢ k
        → Divides LETTERS (slice_index_or rules.now i d).0 (slice_index_or rules.now k d).0 → ⊥ }
{
    let whole = &rules[k];
    for i in 0..rules.len() {
        let part = &rules[i];
        if i != k && is_in(&part.left, &whole.left) {
            return false;
        }
    }
    true
}

/// Whether no left word is in another one.
fn are_lefts_least(rules: &[Rule]) -> bool
    ensures { IsTrue result → (k : ℕ) → k < length rules.now → (i : ℕ) (d : List ℕ × List ℕ)
        → i < length rules.now → i ≢ k
        → Divides LETTERS (slice_index_or rules.now i d).0 (slice_index_or rules.now k d).0 → ⊥ }
{
    for k in 0..rules.len() {
        if !is_left_least(rules, k) {
            return false;
        }
    }
    true
}

/// Whether no relation reduces a word of another one, or its own right word.
pub(crate) fn are_reduced(rules: &[Rule]) -> bool
    ensures { IsTrue result → AreReduced rules.now }
{
    are_rights_standard(rules) && are_lefts_least(rules)
}

/// Whether a heap is left out, or its word is standard.
fn is_standard_if_some(rules: &[Rule], word: &Option<Exponents>) -> bool
    ensures { IsTrue result → IsStandardIfSome rules.now word.now }
{
    match word {
        Some(word) => is_standard(rules, word),
        None => true,
    }
}

/// Whether all words that heaps have are standard.
pub(crate) fn are_words_standard(rules: &[Rule], words: &[Option<Exponents>]) -> bool
    ensures { IsTrue result → All (IsStandardIfSome rules.now) words.now }
{
    words.iter().all(|word| is_standard_if_some(rules, word))
}
