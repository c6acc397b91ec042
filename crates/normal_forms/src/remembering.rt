//! Elements that are known, with what each becomes with a letter more: a word is reduced by a look for each of its letters.
ghost use Rattle.std.specs.Prelude.{◌≡◌, ◌<◌, ◌*◌, ◌+◌, ◌/◌, ◌%◌, ℕ, IfSome, IfOk, IsTrue, length, slice_index_or, None};
ghost use Rattle.presentations.specs.declared.TheConstants.{LETTERS};
ghost use Rattle.presentations.specs.Vectors.{plus, zeros, only};
ghost use Rattle.presentations.specs.Congruences.{Related};
ghost use Rattle.normal_forms.specs.Forms.{IsNormalForm, IsStandard};
ghost use Rattle.normal_forms.specs.Reductions.{AreOriented};
ghost use Rattle.normal_forms.specs.RuleTables.{IsRuleTable};
ghost use Rattle.normal_forms.specs.Known.{known_at, AreStandard, AreKnown, IsStep, AreSteps};

use crate::MOST_LETTERS;
use crate::letters::{is_word, with_letter};
use crate::listing::{place, standard_words};
use crate::reducing::{letter_count, reduced};
use crate::rule::{Exponents, Rule};
use crate::table::RuleTable;
use allocation::Memory;
use presentations::LETTERS;
use std::alloc::{Allocator, Global};
use std::marker::Model;

/// Standard words in order, the first of which is that of nothing, and for each of them and each letter the number of what
/// they become, if that is among them.
#[derive(Drop)]
pub(crate) struct KnownForms<A: Allocator = Global> {
    elements: Vec<Exponents, A>,
    steps: Vec<Option<u32>, A>,
}

impl<A: Allocator> Model for KnownForms<A> {
    ghost use Rattle.normal_forms.specs.Known as known;

    ghost Value = { known.KnownForms };

    ghost view = { λ k. record { elements = k.elements.items; steps = k.steps.items } };
}

/// The normal form of the word, unless it has too many letters.
fn form_of<A: Allocator>(
    rules: &[Rule],
    table: &RuleTable<A>,
    word: &Exponents,
) -> Option<Exponents>
    requires table { IsRuleTable rules.now table.now }
    requires oriented { AreOriented LETTERS rules.now }
    ensures { IfSome result (λ u. IsNormalForm LETTERS rules.now word.now u) }
{
    if letter_count(word) > MOST_LETTERS {
        return None;
    }
    Some(reduced(rules, table, word))
}

/// The number of what element `e` becomes with letter `i` more, if it is in the list.
fn step_of<A: Allocator>(
    rules: &[Rule],
    table: &RuleTable<A>,
    elements: &[Exponents],
    e: usize,
    i: usize,
) -> Option<u32>
    requires table { IsRuleTable rules.now table.now }
    requires oriented { AreOriented LETTERS rules.now }
    ensures { IfSome result (λ v. IsStep rules.now elements.now e i v) }
{
    let more = with_letter(elements.get(e)?, i)?;
    let form = form_of(rules, table, &more)?;
    let v = place(elements, &form);
    if !is_word(elements.get(v)?, &form) {
        return None;
    }
    u32::try_from(v).ok()
}

/// The same for entry `k` of a list that has an entry for each element and each letter, if it is one of the first letters.
fn step_at<A: Allocator>(
    rules: &[Rule],
    table: &RuleTable<A>,
    elements: &[Exponents],
    letters: usize,
    k: usize,
) -> Option<u32>
    requires table { IsRuleTable rules.now table.now }
    requires oriented { AreOriented LETTERS rules.now }
    ensures { IfSome result (λ v. IsStep rules.now elements.now (k / LETTERS) (k % LETTERS) v) }
{
    if k % LETTERS >= letters {
        return None;
    }
    step_of(rules, table, elements, k / LETTERS, k % LETTERS)
}

/// What all elements become with each of the first letters.
fn steps_of<A: Allocator>(
    alloc: A,
    rules: &[Rule],
    table: &RuleTable<A>,
    elements: &[Exponents],
    letters: usize,
) -> Result<Vec<Option<u32>, A>, Memory>
    requires table { IsRuleTable rules.now table.now }
    requires oriented { AreOriented LETTERS rules.now }
    ensures { IfOk result (λ s. AreSteps rules.now elements.now s.items) }
{
    let mut steps = Vec::new(alloc);
    for k in 0..elements.len().saturating_mul(LETTERS) {
        steps.push(step_at(rules, table, elements, letters, k))?;
    }
    Ok(steps)
}

/// Whether the word is seen to be standard.
fn is_standard<A: Allocator>(rules: &[Rule], table: &RuleTable<A>, word: &Exponents) -> bool
    requires { IsRuleTable rules.now table.now }
    ensures { IsTrue result → IsStandard LETTERS rules.now word.now }
{
    table.first_rule(rules, word).is_none()
}

/// Whether all words are.
fn are_standard<A: Allocator>(rules: &[Rule], table: &RuleTable<A>, elements: &[Exponents]) -> bool
    requires { IsRuleTable rules.now table.now }
    ensures { IsTrue result → AreStandard rules.now elements.now }
{
    for k in 0..elements.len() {
        if !is_standard(rules, table, &elements[k]) {
            return false;
        }
    }
    true
}

/// Whether the first word is seen to be that of nothing.
fn is_first(elements: &[Exponents]) -> bool
    ensures { IsTrue result → (0 < length elements.now) × (known_at elements.now 0 ≡ zeros LETTERS) }
{
    match elements.first() {
        Some(word) => letter_count(word) == 0,
        None => false,
    }
}

impl<A: Allocator + Copy> KnownForms<A> {
    /// The standard words in the first letters that have the fewest letters, about so many.
    pub(crate) fn of(
        alloc: A,
        rules: &[Rule],
        table: &RuleTable<A>,
        letters: usize,
        most: usize,
    ) -> Result<Option<KnownForms<A>>, Memory>
        requires table { IsRuleTable rules.now table.now }
        requires oriented { AreOriented LETTERS rules.now }
        ensures { IfOk result (λ o. IfSome o (λ k. AreKnown rules.now k)) }
    {
        let elements = standard_words(alloc, rules, table, letters, most)?;
        if !is_first(&elements) || !are_standard(rules, table, &elements) {
            return Ok(None);
        }
        let steps = steps_of(alloc, rules, table, &elements, letters)?;
        Ok(Some(KnownForms { elements, steps }))
    }
}

impl<A: Allocator> KnownForms<A> {
    /// Entry `k`, if there is one.
    fn entry(&self, rules: &[Rule], k: usize) -> Option<u32>
        requires { AreKnown rules.now self.now }
        ensures { IfSome result (λ v. IsStep rules.now self.now.elements (k / LETTERS) (k % LETTERS) v) }
    {
        *self.steps.get(k)?
    }

    /// What element `e` becomes with letter `i` more, if that is known.
    fn step(&self, rules: &[Rule], e: usize, i: usize) -> Option<usize>
        requires known { AreKnown rules.now self.now }
        requires letter { i < LETTERS }
        ensures { IfSome result (λ v. IsStep rules.now self.now.elements e i v) }
    {
        let k = e.checked_mul(LETTERS)?.checked_add(i)?;
        Some(self.entry(rules, k)? as usize)
    }

    /// The element that the word becomes, if it is found letter by letter.
    fn walked(&self, rules: &[Rule], word: &Exponents) -> Option<usize>
        requires { AreKnown rules.now self.now }
        ensures { IfSome result (λ v. (v < length self.now.elements)
            × Related LETTERS rules.now word.now (known_at self.now.elements v)) }
    {
        let mut at: usize = 0;
        for i in 0..LETTERS {
            for _k in 0..word[i] {
                at = self.step(rules, at, i)?;
            }
        }
        Some(at)
    }

    /// The normal form of the word, if it is found so.
    pub(crate) fn form(&self, rules: &[Rule], word: &Exponents) -> Option<Exponents>
        requires { AreKnown rules.now self.now }
        ensures { IfSome result (λ u. IsNormalForm LETTERS rules.now word.now u) }
    {
        let at = self.walked(rules, word)?;
        self.elements.get(at).copied()
    }
}
