//! All classes of a presentation: a search, and a test of what it found.
ghost use Rattle.std.specs.Prelude.{◌≡◌, ◌<◌, ◌↔◌, ℕ, IfSome, IfOk, IfErr, IsTrue, length};
ghost use Rattle.presentations.specs.declared.TheConstants.{LETTERS};
ghost use Rattle.presentations.specs.Vectors.{plus, zeros, only};
ghost use Rattle.presented_claims.specs.Claims.{IsElement, cycled};
ghost use Rattle.presented_tables.specs.Faults.{IsTrueOf};
ghost use Rattle.presented_claims.specs.Folds.{HavePeriods};
ghost use Rattle.class_tables.specs.Classes.{word_at, IsThere, AreClasses};

use crate::classes::ListedWords;
use normal_forms::{Exponents, Rule, is_word, with_letter};
use presentations::LETTERS;
use presented_tables::{Presented, TablesFault, cycled_word, is_in};
use presented_text::LetterCycle;
use std::alloc::Allocator;

/// Whether the word is an element.
pub(crate) fn is_element<A: Allocator>(p: &Presented<A>, word: &Exponents) -> bool
    ensures { IsTrue result ↔ IsElement p.now word.now }
{
    p.basis.is_standard(word) && is_in(p.letters.len(), word)
}

/// Whether the word is an element that is its own fold.
fn is_class<A: Allocator>(p: &Presented<A>, folds: &[LetterCycle], word: &Exponents) -> bool
    ensures { IsTrue result ↔ (IsElement p.now word.now × (cycled folds.now word.now ≡ word.now)) }
{
    is_element(p, word) && is_word(&cycled_word(folds, word), word)
}

/// Whether the first word is in the second one.
fn divides(left: &Exponents, word: &Exponents) -> bool {
    (0..LETTERS).all(|k| left[k] <= word[k])
}

/// Whether a word is still an element with letter `i` once more, which the word has here: only left words with all of that
/// letter can be in it. Nothing is promised.
fn stays_element(rules: &[Rule], word: &Exponents, i: usize) -> bool {
    if i >= LETTERS {
        return false;
    }
    for rule in rules {
        if rule.left[i] == word[i] && divides(&rule.left, word) {
            return false;
        }
    }
    true
}

/// Adds the classes to which letters lead from word `x`, which is an element.
fn add_more<A: Allocator + Copy>(
    p: &Presented<A>,
    folds: &[LetterCycle],
    list: &mut ListedWords<A>,
    x: usize,
) -> Result<(), TablesFault>
    ensures { IfErr result (λ f. IsTrueOf p.now f) }
{
    let word = match list.get(x) {
        Some(word) => *word,
        None => return Err(TablesFault::Undecided),
    };
    for i in 0..p.letters.len() {
        if let Some(more) = with_letter(&word, i) {
            if stays_element(p.basis.rules(), &more, i)
                && is_word(&cycled_word(folds, &more), &more)
            {
                list.add(more)?;
            }
        }
    }
    Ok(())
}

/// Classes, letter by letter, at most so many. Nothing is promised of them.
pub(crate) fn words_of<A: Allocator + Copy>(
    alloc: A,
    p: &Presented<A>,
    folds: &[LetterCycle],
    most: usize,
) -> Result<ListedWords<A>, TablesFault>
    ensures { IfErr result (λ f. IsTrueOf p.now f) }
{
    let mut list = ListedWords::new(alloc)?;
    for x in 0..most {
        if x >= list.len() {
            return Ok(list);
        }
        add_more(p, folds, &mut list, x)?;
    }
    if list.len() > most {
        return Err(TablesFault::Limit);
    }
    Ok(list)
}

/// Whether the word with letter `i` once more is seen to be in the list, if it is a class.
fn is_listed_with<A: Allocator>(
    p: &Presented<A>,
    folds: &[LetterCycle],
    list: &ListedWords<A>,
    word: &Exponents,
    i: usize,
) -> bool
    ensures { IsTrue result → IsElement p.now (plus word.now (only LETTERS i 1))
        → (cycled folds.now (plus word.now (only LETTERS i 1)) ≡ plus word.now (only LETTERS i 1))
        → IsThere list.now (plus word.now (only LETTERS i 1)) }
{
    let Some(more) = with_letter(word, i) else {
        return false;
    };
    !is_class(p, folds, &more) || list.find(&more).is_some()
}

/// The same with each letter.
fn is_listed_with_each<A: Allocator>(
    p: &Presented<A>,
    folds: &[LetterCycle],
    list: &ListedWords<A>,
    word: &Exponents,
) -> bool
    ensures { IsTrue result → (i : ℕ) → i < length p.now.letters → IsElement p.now (plus word.now (only LETTERS i 1))
        → (cycled folds.now (plus word.now (only LETTERS i 1)) ≡ plus word.now (only LETTERS i 1))
        → IsThere list.now (plus word.now (only LETTERS i 1)) }
{
    for i in 0..p.letters.len() {
        if !is_listed_with(p, folds, list, word, i) {
            return false;
        }
    }
    true
}

/// Whether word `w` is seen to be an element.
fn is_element_at<A: Allocator>(p: &Presented<A>, list: &ListedWords<A>, w: usize) -> bool
    ensures { IsTrue result → IsElement p.now (word_at list.now w) }
{
    match list.get(w) {
        Some(word) => is_element(p, word),
        None => false,
    }
}

/// Whether word `x` is seen to be an element, and with one letter more in the list, if that is a class.
fn is_listed_at<A: Allocator>(
    p: &Presented<A>,
    folds: &[LetterCycle],
    list: &ListedWords<A>,
    x: usize,
) -> bool
    ensures element { IsTrue result → IsElement p.now (word_at list.now x) }
    ensures more { IsTrue result → (i : ℕ) → i < length p.now.letters
        → IsElement p.now (plus (word_at list.now x) (only LETTERS i 1))
        → (cycled folds.now (plus (word_at list.now x) (only LETTERS i 1)) ≡ plus (word_at list.now x) (only LETTERS i 1))
        → IsThere list.now (plus (word_at list.now x) (only LETTERS i 1)) }
{
    let Some(word) = list.get(x) else {
        return false;
    };
    is_element(p, word) && is_listed_with_each(p, folds, list, word)
}

/// Whether word 0 is seen to be that of nothing.
pub(crate) fn is_first<A: Allocator>(list: &ListedWords<A>) -> bool
    ensures { IsTrue result → (0 < length list.now) × (word_at list.now 0 ≡ zeros LETTERS) }
{
    match list.get(0) {
        Some(word) => is_in(0, word),
        None => false,
    }
}

/// Whether all words are elements.
pub(crate) fn are_elements<A: Allocator>(p: &Presented<A>, list: &ListedWords<A>) -> bool
    ensures { IsTrue result → (w : ℕ) → w < length list.now → IsElement p.now (word_at list.now w) }
{
    for w in 0..list.len() {
        if !is_element_at(p, list, w) {
            return false;
        }
    }
    true
}

/// Whether the list is seen to have all classes.
fn are_classes<A: Allocator>(p: &Presented<A>, folds: &[LetterCycle], list: &ListedWords<A>) -> bool
    ensures { IsTrue result → HavePeriods folds.now → AreClasses p.now folds.now list.now }
{
    if !is_first(list) {
        return false;
    }
    for x in 0..list.len() {
        if !is_listed_at(p, folds, list, x) {
            return false;
        }
    }
    true
}

/// All classes, at most so many.
pub(crate) fn classes_of<A: Allocator + Copy>(
    alloc: A,
    p: &Presented<A>,
    folds: &[LetterCycle],
    most: usize,
) -> Result<ListedWords<A>, TablesFault>
    ensures classes { IfOk result (λ l. HavePeriods folds.now → AreClasses p.now folds.now l) }
    ensures fault { IfErr result (λ f. IsTrueOf p.now f) }
{
    let list = words_of(alloc, p, folds, most)?;
    if are_classes(p, folds, &list) {
        Ok(list)
    } else {
        Err(TablesFault::Undecided)
    }
}
