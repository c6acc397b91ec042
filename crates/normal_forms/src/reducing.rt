//! Words reduced by relations until none can.
ghost use Rattle.std.specs.Prelude.{◌≡◌, ◌<◌, ◌≤◌, ◌↔◌, ℕ, IsTrue, MatchOption, List, All, length, slice_index_or};
ghost use Rattle.presentations.specs.declared.TheConstants.{LETTERS};
ghost use Rattle.relations.specs.Bases.{Divides, Precedes, letter_count};
ghost use Rattle.normal_forms.specs.declared.TheConstants.{MOST_LETTERS};
ghost use Rattle.normal_forms.specs.Reductions.{IsReduction, ReducesTo, AreOriented};
ghost use Rattle.normal_forms.specs.Forms.{IsStandard};
ghost use Rattle.normal_forms.specs.RuleTables.{IsRuleTable};

use crate::rule::{Exponents, Rule};
use crate::table::RuleTable;
use presentations::LETTERS;
use std::alloc::Allocator;

/// How many letters the word has in all.
pub fn letter_count(word: &Exponents) -> u32
    ensures { result ≡ letter_count LETTERS word.now }
{
    let mut count = 0u32;
    for i in 0..LETTERS {
        count += word[i] as u32;
    }
    count
}

/// Whether the first word is in the second one.
pub fn divides(left: &Exponents, word: &Exponents) -> bool
    ensures { IsTrue result ↔ Divides LETTERS left.now word.now }
{
    for i in 0..LETTERS {
        if left[i] > word[i] {
            return false;
        }
    }
    true
}

/// The number of the first relation that can reduce the word.
pub fn first_rule(rules: &[Rule], word: &Exponents) -> Option<usize>
    ensures { MatchOption result (All (λ r. Divides LETTERS r.0 word.now → ⊥) rules.now)
        (λ k. (k < length rules.now)
        × ((d : List ℕ × List ℕ) → Divides LETTERS (slice_index_or rules.now k d).0 word.now)) }
{
    for k in 0..rules.len() {
        let rule = &rules[k];
        if divides(&rule.left, word) {
            return Some(k);
        }
    }
    None
}

/// The word with the rule's right word in place of its left one.
fn replaced(rule: &Rule, word: &Exponents) -> Exponents
    requires divides { Divides LETTERS rule.now.0 word.now }
    requires falls { Precedes LETTERS rule.now.1 rule.now.0 }
    requires few { letter_count LETTERS word.now ≤ MOST_LETTERS }
    ensures { IsReduction LETTERS rule.now word.now result }
{
    let mut changed = *word;
    for i in 0..LETTERS {
        changed[i] = word[i] - rule.left[i] + rule.right[i];
    }
    changed
}

/// The word reduced until no relation can.
pub(crate) fn reduced<A: Allocator>(
    rules: &[Rule],
    table: &RuleTable<A>,
    word: &Exponents,
) -> Exponents
    requires table { IsRuleTable rules.now table.now }
    requires oriented { AreOriented LETTERS rules.now }
    requires few { letter_count LETTERS word.now ≤ MOST_LETTERS }
    ensures standard { IsStandard LETTERS rules.now result }
    ensures reduces { ReducesTo LETTERS rules.now word.now result }
{
    let mut reduced = *word;
    while let Some(k) = table.first_rule(rules, &reduced) {
        reduced = replaced(&rules[k], &reduced);
    }
    reduced
}
