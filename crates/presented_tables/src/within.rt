//! Whether words have a presentation's letters alone.
ghost use Rattle.std.specs.Prelude.{◌≡◌, ◌<◌, ◌↔◌, ℕ, IsTrue, IfOk, IfErr, None, true, false, length, slice_index_or};
ghost use Rattle.presentations.specs.declared.TheConstants.{LETTERS};
ghost use Rattle.normal_forms.specs.Forms.{IsIn, AreIn};
ghost use Rattle.presented_claims.specs.Claims.{word_or_one};
ghost use Rattle.presented_tables.specs.Faults.{IsTrueOf};
ghost use Rattle.presented_tables.specs.Tested.{AreWordsIn};

use crate::fault::TablesFault;
use crate::presentation::Presented;
use normal_forms::{Exponents, Rule};
use presentations::LETTERS;
use std::alloc::Allocator;

/// Whether the word has no letter but the first ones.
pub fn is_in(letters: usize, word: &Exponents) -> bool
    ensures within { IsTrue result ↔ IsIn letters word.now }
    ensures long { length word.now ≡ LETTERS }
{
    for i in 0..LETTERS {
        if letters <= i && word[i] != 0 {
            return false;
        }
    }
    true
}

/// Whether both words of the relation are such.
fn is_rule_in(letters: usize, rule: &Rule) -> bool
    ensures { IsTrue result ↔ (IsIn letters rule.now.0 × IsIn letters rule.now.1) }
{
    is_in(letters, &rule.left) && is_in(letters, &rule.right)
}

/// Whether all words of relations are.
fn are_in(letters: usize, rules: &[Rule]) -> bool
    ensures { IsTrue result ↔ AreIn letters rules.now }
{
    for k in 0..rules.len() {
        if !is_rule_in(letters, &rules[k]) {
            return false;
        }
    }
    true
}

/// Whether the word of a heap of the list is, or it has none.
fn is_heap_word_in(letters: usize, word: &Option<Exponents>) -> bool
    ensures within { IsTrue result ↔ IsIn letters (word_or_one word.now) }
    ensures long { length (word_or_one word.now) ≡ LETTERS }
{
    match word {
        Some(word) => is_in(letters, word),
        None => true,
    }
}

/// Whether the words of all heaps of the list are.
fn are_heap_words_in(letters: usize, words: &[Option<Exponents>]) -> bool
    ensures yes { result ≡ true → (i : ℕ) → i < length words.now
        → (length (word_or_one (slice_index_or words.now i None)) ≡ LETTERS)
        × IsIn letters (word_or_one (slice_index_or words.now i None)) }
    ensures no { result ≡ false → (i : ℕ) × (i < length words.now)
        × (IsIn letters (word_or_one (slice_index_or words.now i None)) → ⊥) }
{
    for i in 0..words.len() {
        if !is_heap_word_in(letters, &words[i]) {
            return false;
        }
    }
    true
}

/// Whether all words of the relations are.
fn are_relations_in<A: Allocator>(p: &Presented<A>) -> bool
    ensures { IsTrue result ↔ AreIn (length p.now.letters) p.now.relations }
{
    are_in(p.letters.len(), p.basis.rules())
}

/// Whether the words of all heaps are.
fn are_words_in<A: Allocator>(p: &Presented<A>) -> bool
    ensures yes { result ≡ true → AreWordsIn p.now }
    ensures no { result ≡ false → (i : ℕ) × (i < length p.now.words)
        × (IsIn (length p.now.letters) (word_or_one (slice_index_or p.now.words i None)) → ⊥) }
{
    are_heap_words_in(p.letters.len(), p.words.as_slice())
}

/// Tests the relations and the heaps' words.
pub fn test_within<A: Allocator>(p: &Presented<A>) -> Result<(), TablesFault>
    ensures relations { IfOk result (λ _. AreIn (length p.now.letters) p.now.relations) }
    ensures words { IfOk result (λ _. AreWordsIn p.now) }
    ensures fault { IfErr result (λ f. IsTrueOf p.now f) }
{
    if !are_relations_in(p) {
        return Err(TablesFault::Letters);
    }
    if !are_words_in(p) {
        return Err(TablesFault::Letters);
    }
    Ok(())
}
