//! Whether relations lead down, and their critical pairs join.
ghost use Rattle.std.specs.Prelude.{◌≡◌, ◌⊎◌, ◌+◌, ◌<◌, ◌≤◌, ◌↔◌, ℕ, List, IsTrue, length, slice_index, slice_index_or};
ghost use Rattle.presentations.specs.declared.TheConstants.{LETTERS};
ghost use Rattle.relations.specs.Bases.{Precedes, letter_count};
ghost use Rattle.normal_forms.specs.declared.TheConstants.{MOST_LETTERS};
ghost use Rattle.normal_forms.specs.Reductions.{AreOriented, AreConvergent, AreShort, Join, side_of};
ghost use Rattle.normal_forms.specs.RuleTables.{IsRuleTable};

use crate::MOST_LEFT_LETTERS;
use crate::letters::is_word;
use crate::reducing::{letter_count, reduced};
use crate::rule::{Exponents, Rule};
use crate::table::RuleTable;
use presentations::LETTERS;
use std::alloc::Allocator;

/// Whether the first word comes before the second one: by fewer letters in all, and of as many, by more
/// of the first letter of which they differ.
fn comes_before(v: &Exponents, w: &Exponents) -> bool
    ensures { IsTrue result ↔ Precedes LETTERS v.now w.now }
{
    let (less, more) = (letter_count(v), letter_count(w));
    if less != more {
        return less < more;
    }
    for i in 0..LETTERS {
        if v[i] != w[i] {
            return v[i] > w[i];
        }
    }
    false
}

/// Whether no left word has more than `MOST_LEFT_LETTERS` letters.
pub fn are_short(rules: &[Rule]) -> bool
    ensures { IsTrue result ↔ AreShort LETTERS rules.now }
{
    for k in 0..rules.len() {
        let rule = &rules[k];
        if letter_count(&rule.left) > MOST_LEFT_LETTERS {
            return false;
        }
    }
    true
}

/// Whether each right word comes before its left one.
pub fn are_oriented(rules: &[Rule]) -> bool
    ensures { IsTrue result ↔ AreOriented LETTERS rules.now }
{
    for k in 0..rules.len() {
        let rule = &rules[k];
        if !comes_before(&rule.right, &rule.left) {
            return false;
        }
    }
    true
}

/// What the first relation makes of the least word that both left words are in.
fn side(one: &Rule, other: &Rule) -> Exponents
    requires few { letter_count LETTERS one.now.0 + letter_count LETTERS other.now.0 ≤ MOST_LETTERS }
    requires falls { Precedes LETTERS one.now.1 one.now.0 }
    ensures value { result ≡ side_of one.now other.now }
    ensures few { letter_count LETTERS result ≤ MOST_LETTERS }
{
    let mut side = one.right;
    for i in 0..LETTERS {
        side[i] = one.right[i] + other.left[i].saturating_sub(one.left[i]);
    }
    side
}

/// Whether no letter is in both words.
fn are_coprime(v: &Exponents, w: &Exponents) -> bool
    ensures { IsTrue result → (i : ℕ) → i < LETTERS
        → (slice_index v.now i ≡ 0) ⊎ (slice_index w.now i ≡ 0) }
{
    for i in 0..LETTERS {
        if v[i] > 0 && w[i] > 0 {
            return false;
        }
    }
    true
}

/// Whether the critical pair of two relations joins. Where no letter is in both left words, it does.
fn pair_joins<A: Allocator>(rules: &[Rule], table: &RuleTable<A>, i: usize, k: usize) -> bool
    requires table { IsRuleTable rules.now table.now }
    requires short { AreShort LETTERS rules.now }
    requires oriented { AreOriented LETTERS rules.now }
    requires i_in { i < length rules.now }
    requires k_in { k < length rules.now }
    ensures joins { IsTrue result → (d : List ℕ × List ℕ) → Join LETTERS rules.now
        (side_of (slice_index_or rules.now i d) (slice_index_or rules.now k d))
        (side_of (slice_index_or rules.now k d) (slice_index_or rules.now i d)) }
    ensures fails { AreConvergent LETTERS rules.now → IsTrue result }
{
    let (one, other) = (&rules[i], &rules[k]);
    if are_coprime(&one.left, &other.left) {
        return true;
    }
    let first = reduced(rules, table, &side(one, other));
    let second = reduced(rules, table, &side(other, one));
    is_word(&first, &second)
}

/// Whether the critical pairs of relation `i` with those before it join.
fn join_before<A: Allocator>(rules: &[Rule], table: &RuleTable<A>, i: usize) -> bool
    requires table { IsRuleTable rules.now table.now }
    requires short { AreShort LETTERS rules.now }
    requires oriented { AreOriented LETTERS rules.now }
    requires i_in { i < length rules.now }
    ensures joins { IsTrue result → (k : ℕ) (d : List ℕ × List ℕ) → k < i → Join LETTERS rules.now
        (side_of (slice_index_or rules.now i d) (slice_index_or rules.now k d))
        (side_of (slice_index_or rules.now k d) (slice_index_or rules.now i d)) }
    ensures fails { AreConvergent LETTERS rules.now → IsTrue result }
{
    for k in 0..i {
        if !pair_joins(rules, table, i, k) {
            return false;
        }
    }
    true
}

/// Whether all critical pairs join.
pub fn do_pairs_join<A: Allocator>(rules: &[Rule], table: &RuleTable<A>) -> bool
    requires table { IsRuleTable rules.now table.now }
    requires short { AreShort LETTERS rules.now }
    requires oriented { AreOriented LETTERS rules.now }
    ensures { IsTrue result ↔ AreConvergent LETTERS rules.now }
{
    for i in 0..rules.len() {
        if !join_before(rules, table, i) {
            return false;
        }
    }
    true
}
