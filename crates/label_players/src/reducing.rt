//! Words with large exponents reduced by relations until none can.
ghost use Rattle.std.specs.Prelude.{◌≡◌, ◌<◌, ◌≤◌, ◌↔◌, ℕ, IsTrue, MatchOption, List, All, length, slice_index_or};
ghost use Rattle.presentations.specs.declared.TheConstants.{LETTERS};
ghost use Rattle.relations.specs.Bases.{Divides, Precedes, letter_count};
ghost use Rattle.normal_forms.specs.Reductions.{IsReduction, ReducesTo, AreOriented};
ghost use Rattle.normal_forms.specs.Forms.{IsStandard};

use crate::wide::WideWord;
use normal_forms::{Exponents, Rule};
use presentations::LETTERS;

/// The most letters of a word that is reduced: 2^104.
pub(crate) const MOST_LETTERS: u128 = 20_282_409_603_651_670_423_947_251_286_016;

/// Whether the first word is in the second one.
fn divides(left: &Exponents, word: &WideWord) -> bool
    ensures { IsTrue result ↔ Divides LETTERS left.now word.now }
{
    for i in 0..LETTERS {
        if left[i] as u128 > word[i] {
            return false;
        }
    }
    true
}

/// The number of the first relation that can reduce the word.
fn first_rule(rules: &[Rule], word: &WideWord) -> Option<usize>
    ensures { MatchOption result (All (λ r. Divides LETTERS r.0 word.now → ⊥) rules.now)
        (λ k. (k < length rules.now)
        × ((d : List ℕ × List ℕ) → Divides LETTERS (slice_index_or rules.now k d).0 word.now)) }
{
    for k in 0..rules.len() {
        let rule = &rules[k];
        if divides(&rule.left, word) {
            return Some(k);
        }
    }
    None
}

/// The word with the rule's right word in place of its left one.
fn replaced(rule: &Rule, word: &WideWord) -> WideWord
    requires divides { Divides LETTERS rule.now.0 word.now }
    requires falls { Precedes LETTERS rule.now.1 rule.now.0 }
    requires few { letter_count LETTERS word.now ≤ MOST_LETTERS }
    ensures { IsReduction LETTERS rule.now word.now result }
{
    let mut changed = *word;
    for i in 0..LETTERS {
        changed[i] = word[i] - rule.left[i] as u128 + rule.right[i] as u128;
    }
    changed
}

/// The word reduced until no relation can.
pub(crate) fn reduced(rules: &[Rule], word: &WideWord) -> WideWord
    requires oriented { AreOriented LETTERS rules.now }
    requires few { letter_count LETTERS word.now ≤ MOST_LETTERS }
    ensures standard { IsStandard LETTERS rules.now result }
    ensures reduces { ReducesTo LETTERS rules.now word.now result }
{
    let mut reduced = *word;
    while let Some(k) = first_rule(rules, &reduced) {
        reduced = replaced(&rules[k], &reduced);
    }
    reduced
}
