//! Whether the words of a portion stand for standard words alone, and none for two.
ghost use Rattle.std.specs.Prelude.{◌≡◌, ◌≤◌, ◌<◌, ◌⊎◌, ℕ, IsTrue, All, length, slice_index, slice_index_or};
ghost use Rattle.presentations.specs.declared.TheConstants.{LETTERS};
ghost use Rattle.presented_forms.specs.Form.{IsBelow, MayHold, StandsForStandard};

use normal_forms::{Exponents, Rule};
use presentations::LETTERS;
use presented_text::LetterCycle;

/// Whether of each letter with a cycle the word has fewer than where the first period ends.
fn is_below(cycles: &[LetterCycle], word: &Exponents) -> bool
    requires { length cycles.now ≤ LETTERS }
    ensures { IsTrue result → IsBelow cycles.now word.now }
{
    for i in 0..cycles.len() {
        let cycle = cycles[i];
        if word[i] as u32 >= cycle.start as u32 + cycle.period as u32 {
            return false;
        }
    }
    true
}

/// Whether all words are.
pub(crate) fn are_below(cycles: &[LetterCycle], words: &[Exponents]) -> bool
    requires { length cycles.now ≤ LETTERS }
    ensures { IsTrue result → All (IsBelow cycles.now) words.now }
{
    words.iter().all(|word| is_below(cycles, word))
}

/// Whether the word's letter `i` is in its cycle.
fn runs(cycles: &[LetterCycle], word: &Exponents, i: usize) -> bool
    requires { i < LETTERS }
    ensures { (d : ℕ × ℕ) → i < length cycles.now
        → (slice_index_or cycles.now i d).0 ≤ slice_index word.now i → IsTrue result }
{
    match cycles.get(i) {
        Some(cycle) => word[i] >= cycle.start,
        None => false,
    }
}

/// Whether some word that the cycles take to this one may hold the left word: of each letter this word has as
/// many, or is in a cycle.
fn may_hold(cycles: &[LetterCycle], left: &Exponents, word: &Exponents) -> bool
    ensures { MayHold cycles.now left.now word.now → IsTrue result }
{
    for i in 0..LETTERS {
        if left[i] > word[i] && !runs(cycles, word, i) {
            return false;
        }
    }
    true
}

/// Whether only standard words are taken to this one by the cycles.
fn stands_for_standard(rules: &[Rule], cycles: &[LetterCycle], word: &Exponents) -> bool
    ensures { IsTrue result → StandsForStandard rules.now cycles.now word.now }
{
    for k in 0..rules.len() {
        let rule = &rules[k];
        if may_hold(cycles, &rule.left, word) {
            return false;
        }
    }
    true
}

/// Whether this is so of all words.
pub(crate) fn stand_for_standard(
    rules: &[Rule],
    cycles: &[LetterCycle],
    words: &[Exponents],
) -> bool
    ensures { IsTrue result → All (StandsForStandard rules.now cycles.now) words.now }
{
    words
        .iter()
        .all(|word| stands_for_standard(rules, cycles, word))
}
