//! Whether two presentations are alike: their relations, cycles and portions are the same.
ghost use Rattle.std.specs.Prelude.{◌≡◌, ◌↔◌, IsTrue};
ghost use Rattle.description_commands.specs.Alike.{AreAlike};

use normal_forms::{Exponents, Rule, is_word};
use presented_tables::Presented;
use presented_text::LetterCycle;

/// Whether the words are the same.
fn are_words(a: &[Exponents], b: &[Exponents]) -> bool
    ensures { IsTrue result ↔ (a.now ≡ b.now) }
{
    if a.len() != b.len() {
        return false;
    }
    for k in 0..a.len() {
        if !is_word(&a[k], &b[k]) {
            return false;
        }
    }
    true
}

/// Whether the relations have the same words.
fn is_rule(a: &Rule, b: &Rule) -> bool
    ensures { IsTrue result ↔ (a.now ≡ b.now) }
{
    is_word(&a.left, &b.left) && is_word(&a.right, &b.right)
}

/// Whether the relations are the same.
fn are_rules(a: &[Rule], b: &[Rule]) -> bool
    ensures { IsTrue result ↔ (a.now ≡ b.now) }
{
    if a.len() != b.len() {
        return false;
    }
    for k in 0..a.len() {
        if !is_rule(&a[k], &b[k]) {
            return false;
        }
    }
    true
}

/// Whether the cycles have the same start and period.
fn is_cycle(a: &LetterCycle, b: &LetterCycle) -> bool
    ensures { IsTrue result ↔ (a.now ≡ b.now) }
{
    a.start == b.start && a.period == b.period
}

/// Whether the cycles are the same.
fn are_cycles(a: &[LetterCycle], b: &[LetterCycle]) -> bool
    ensures { IsTrue result ↔ (a.now ≡ b.now) }
{
    if a.len() != b.len() {
        return false;
    }
    for k in 0..a.len() {
        if !is_cycle(&a[k], &b[k]) {
            return false;
        }
    }
    true
}

/// Whether the presentations are alike, whatever heaps their letters are.
pub(crate) fn are_alike(a: &Presented, b: &Presented) -> bool
    ensures { IsTrue result ↔ AreAlike a.now b.now }
{
    a.letters.len() == b.letters.len()
        && are_rules(a.basis.rules(), b.basis.rules())
        && are_cycles(a.cycles.as_slice(), b.cycles.as_slice())
        && are_words(a.portion.as_slice(), b.portion.as_slice())
}
