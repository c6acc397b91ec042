//! For each letter and each exponent, which relations have the letter more often in their left words: a relation that can
//! reduce a word is found by unions of sets.
ghost use Rattle.std.specs.Prelude.{◌≡◌, ◌<◌, ◌≤◌, ◌+◌, ◌*◌, ◌/◌, ◌%◌, ◌↔◌, ℕ, IsTrue, IfOk, IfSome, MatchOption, None, List, All, length, slice_index_or};
ghost use Rattle.std.specs.FinSet as set;
ghost use Rattle.presentations.specs.declared.TheConstants.{LETTERS};
ghost use Rattle.relations.specs.Bases.{Divides};
ghost use Rattle.normal_forms.specs.declared.table.TheConstants.{EACH, DEPTH};
ghost use Rattle.normal_forms.specs.RuleTables.{HasMore, IsRow, AreRows, IsAll, IsRuleTable, IsUseless, AreUseless};

use crate::reducing::{divides, first_rule};
use crate::rule::{Exponents, Rule};
use allocation::Memory;
use element_sets::ElementSet;
use presentations::LETTERS;
use std::alloc::{Allocator, Global};
use std::marker::Model;

/// How many relations a set is of.
pub const EACH: usize = 512;

/// Exponents below this one have sets.
pub const DEPTH: usize = 32;

/// For each `EACH` relations, each letter and each exponent the set of those that have the letter more often in their left
/// words, and the set of all numbers below `EACH`.
#[derive(Drop)]
pub(crate) struct RuleTable<A: Allocator = Global> {
    all: ElementSet,
    rows: Vec<ElementSet, A>,
}

impl<A: Allocator> Model for RuleTable<A> {
    ghost use Rattle.normal_forms.specs.RuleTables as tables;
    ghost use Rattle.std.specs.FinSet as set;
    ghost use Rattle.std.specs.Ordering.{nat_cmp};
    ghost use Rattle.std.specs.Coded.{codes, coded_ℕ};

    ghost Value = { tables.RuleTable };

    ghost coded = { Prim.hlevel (codes, set.code {R = nat_cmp} coded_ℕ) };

    ghost view = { λ t. record { all = t.all; rows = t.rows.items } };
}

/// Whether relation `k` has letter `i` more than `e` times in its left word.
fn has_more(rules: &[Rule], k: usize, i: usize, e: usize) -> bool
    requires { i < LETTERS }
    ensures { IsTrue result → HasMore rules.now k i e }
{
    match rules.get(k) {
        Some(rule) => rule.left[i] as usize > e,
        None => false,
    }
}

/// The relations that do, of `EACH` from number `start` on.
fn row_of(rules: &[Rule], start: usize, i: usize, e: usize) -> ElementSet
    requires { i < LETTERS }
    ensures { IsRow rules.now start i e result }
{
    let mut row = ElementSet::new();
    for x in 0..rules.len().saturating_sub(start).min(EACH) {
        if has_more(rules, start + x, i, e) {
            row.insert(x as u16);
        }
    }
    row
}

/// The numbers below `EACH`.
fn all_numbers() -> ElementSet
    ensures { IsAll result }
{
    let mut all = ElementSet::new();
    for x in 0..EACH {
        all.insert(x as u16);
    }
    all
}

/// Row `r` of the table.
fn row_at(rules: &[Rule], r: usize) -> ElementSet
    ensures { IsRow rules.now (r / DEPTH / LETTERS * EACH) (r / DEPTH % LETTERS) (r % DEPTH) result }
{
    let at = r / DEPTH;
    match (at / LETTERS).checked_mul(EACH) {
        Some(start) => row_of(rules, start, at % LETTERS, r % DEPTH),
        None => ElementSet::new(),
    }
}

/// The rows of all letters and exponents.
fn rows_of<A: Allocator>(alloc: A, rules: &[Rule]) -> Result<Vec<ElementSet, A>, Memory>
    ensures { IfOk result (λ rows. AreRows rules.now rows.items) }
{
    let mut rows = Vec::new(alloc);
    for r in 0..rules.len().div_ceil(EACH).saturating_mul(LETTERS * DEPTH) {
        rows.push(row_at(rules, r))?;
    }
    Ok(rows)
}

/// The number of the row of group `g` of relations, of letter `i` and exponent `e`, if there can be one.
fn row_number(g: usize, i: usize, e: usize) -> Option<usize>
    ensures { IfSome result (λ r. (e < DEPTH) × (r ≡ (g * LETTERS + i) * DEPTH + e)) }
{
    if e >= DEPTH {
        return None;
    }
    let at = g.checked_mul(LETTERS)?.checked_add(i)?;
    at.checked_mul(DEPTH)?.checked_add(e)
}

impl<A: Allocator> RuleTable<A> {
    /// The table of the relations.
    pub(crate) fn of(alloc: A, rules: &[Rule]) -> Result<RuleTable<A>, Memory>
        ensures { IfOk result (λ t. IsRuleTable rules.now t) }
    {
        let rows = rows_of(alloc, rules)?;
        Ok(RuleTable {
            all: all_numbers(),
            rows,
        })
    }

    /// Row `r`, if there is one.
    fn row(&self, rules: &[Rule], r: usize) -> Option<&ElementSet>
        requires { IsRuleTable rules.now self.now }
        ensures { IfSome result
            (λ s. IsRow rules.now (r / DEPTH / LETTERS * EACH) (r / DEPTH % LETTERS) (r % DEPTH) s.now) }
    {
        self.rows.get(r)
    }

    /// The row of group `g` of relations, of letter `i` and exponent `e`, if there is one.
    fn row_for(&self, rules: &[Rule], g: usize, i: usize, e: usize) -> Option<&ElementSet>
        requires table { IsRuleTable rules.now self.now }
        requires letter { i < LETTERS }
        ensures { IfSome result (λ s. IsRow rules.now (g * EACH) i e s.now) }
    {
        let r = row_number(g, i, e)?;
        let row = self.row(rules, r)?;
        Some(row)
    }

    /// Relations of group `g` that can't reduce the word.
    fn useless(&self, rules: &[Rule], g: usize, word: &Exponents) -> ElementSet
        requires { IsRuleTable rules.now self.now }
        ensures { AreUseless rules.now (g * EACH) word.now result }
    {
        let mut useless = ElementSet::new();
        for i in 0..LETTERS {
            if let Some(row) = self.row_for(rules, g, i, word[i] as usize) {
                useless.union_with(row);
            }
        }
        useless
    }

    /// The number of the first relation of group `g` that isn't seen to leave the word as it is.
    fn first_of(&self, rules: &[Rule], g: usize, word: &Exponents) -> Option<usize>
        requires table { IsRuleTable rules.now self.now }
        requires some { g * EACH < length rules.now }
        ensures { (result ≡ None) → (x : ℕ) → x < EACH → IsUseless rules.now (g * EACH + x) word.now }
    {
        let start = g * EACH;
        let count = (rules.len() - start).min(EACH);
        let useless = self.useless(rules, g, word);
        let first = useless.first_apart(&self.all, count as u16) as usize;
        if first < count {
            Some(start + first)
        } else {
            None
        }
    }

    /// The number of the first relation that can reduce the word.
    pub(crate) fn first_rule(&self, rules: &[Rule], word: &Exponents) -> Option<usize>
        requires { IsRuleTable rules.now self.now }
        ensures { MatchOption result (All (λ r. Divides LETTERS r.0 word.now → ⊥) rules.now)
            (λ k. (k < length rules.now)
            × ((d : List ℕ × List ℕ) → Divides LETTERS (slice_index_or rules.now k d).0 word.now)) }
    {
        for g in 0..rules.len().div_ceil(EACH) {
            if let Some(k) = self.first_of(rules, g, word) {
                return rule_at(rules, k, word);
            }
        }
        None
    }
}

/// The relation, if it can reduce the word; else the first one that can.
fn rule_at(rules: &[Rule], k: usize, word: &Exponents) -> Option<usize>
    ensures { MatchOption result (All (λ r. Divides LETTERS r.0 word.now → ⊥) rules.now)
        (λ k. (k < length rules.now)
        × ((d : List ℕ × List ℕ) → Divides LETTERS (slice_index_or rules.now k d).0 word.now)) }
{
    match rules.get(k) {
        Some(rule) if divides(&rule.left, word) => Some(k),
        _ => first_rule(rules, word),
    }
}
