//! Whether relations present the monoid of a table, as words for its elements show.
ghost use Rattle.std.specs.Prelude.{◌≡◌, ◌<◌, ◌≤◌, ◌↔◌, ℕ, IsTrue, IfOk, IfSome, All, length, slice_index};
ghost use Rattle.monoid_table.specs.Grids.{times_in};
ghost use Rattle.presentations.specs.declared.TheConstants.{LETTERS};
ghost use Rattle.presentations.specs.Vectors.{bump};
ghost use Rattle.presentations.specs.Words.{occurs, letters_of};
ghost use Rattle.presentations.specs.Tables.{product_at};
ghost use Rattle.relations.specs.Presented.{first_letters, vector_of, HoldsIn, AreNamed, StepHolds, ArePresentation};

use crate::rewriting::{Rules, completed, is_same, reduced};
use allocation::Memory;
use monoid_table::{Table, is_monoid};
use presentations::{LETTERS, Relation, Word};
use std::alloc::Allocator;

/// Whether the letter stands in some relation.
fn occurs(relations: &[Relation], letter: u8) -> bool
    requires { letter < LETTERS }
    ensures { result ≡ occurs relations.now letter }
{
    for relation in relations {
        if relation.left[letter as usize] > 0 || relation.right[letter as usize] > 0 {
            return true;
        }
    }
    false
}

/// Whether the letters that occur are the first ones, so many of them.
fn uses_first(letters: usize, relations: &[Relation]) -> bool
    requires { letters ≤ LETTERS }
    ensures { IsTrue result → letters_of relations.now ≡ first_letters letters }
{
    for letter in 0..LETTERS as u8 {
        if occurs(relations, letter) != ((letter as usize) < letters) {
            return false;
        }
    }
    true
}

/// The element of a word.
pub fn value<A: Allocator>(table: &Table<A>, elements: &[u16], word: &Word) -> u16
    requires elements { All (λ e. e < table.now.order) elements.now }
    requires letters { length elements.now ≤ LETTERS }
    ensures value { result
        ≡ product_at (times_in table.now) elements.now (vector_of (length elements.now) word.now) }
    ensures within { result < table.now.order }
{
    is_monoid(table);
    let letters = elements.len();
    let mut all = 0;
    for k in 0..letters {
        let i = letters - 1 - k;
        let power = table.power(elements[i], word[i] as u64);
        all = table.times(power, all);
    }
    all
}

/// Whether both words of each relation are one element.
pub fn hold<A: Allocator>(table: &Table<A>, elements: &[u16], relations: &[Relation]) -> bool
    requires elements { All (λ e. e < table.now.order) elements.now }
    requires letters { length elements.now ≤ LETTERS }
    ensures { IsTrue result → All (HoldsIn table.now elements.now) relations.now }
{
    for relation in relations {
        let left = value(table, elements, &relation.left);
        let right = value(table, elements, &relation.right);
        if left != right {
            return false;
        }
    }
    true
}

/// Whether each word is that of its element.
fn are_named<A: Allocator>(table: &Table<A>, elements: &[u16], words: &[Word]) -> bool
    requires elements { All (λ e. e < table.now.order) elements.now }
    requires letters { length elements.now ≤ LETTERS }
    requires words { length words.now ≡ table.now.order }
    ensures { IsTrue result → AreNamed table.now elements.now words.now }
{
    for x in 0..table.order() {
        let element = value(table, elements, &words[x as usize]);
        if element != x {
            return false;
        }
    }
    true
}

/// Whether no letter stands in the word.
pub fn is_empty(letters: usize, word: &Word) -> bool
    requires { letters ≤ LETTERS }
    ensures { IsTrue result ↔ ((i : ℕ) → i < letters → slice_index word.now i ≡ 0) }
{
    for i in 0..letters {
        if word[i] != 0 {
            return false;
        }
    }
    true
}

/// The word with letter `i` once more, where its exponent gets no larger than `u8::MAX`.
pub fn lengthened(letters: usize, word: &Word, i: usize) -> Option<Word>
    requires letters { letters ≤ LETTERS }
    requires i_in { i < letters }
    ensures { IfSome result
        (λ more. vector_of letters more ≡ bump (vector_of letters word.now) i) }
{
    let mut more = *word;
    if more[i] == u8::MAX {
        return None;
    }
    more[i] += 1;
    Some(more)
}

/// Whether the rules lead the word of x with letter `i` once more and the word of their product to
/// one word.
fn step_holds<A: Allocator>(
    table: &Table<A>,
    elements: &[u16],
    rules: &Rules<A>,
    words: &[Word],
    x: u16,
    i: usize,
    steps: u32,
) -> bool
    requires elements { All (λ e. e < table.now.order) elements.now }
    requires letters { length elements.now ≤ LETTERS }
    requires words { length words.now ≡ table.now.order }
    requires x_in { x < table.now.order }
    requires i_in { i < length elements.now }
    ensures { IsTrue result → StepHolds table.now elements.now rules.now.relations.items words.now x i }
{
    let letters = elements.len();
    let Some(more) = lengthened(letters, &words[x as usize], i) else {
        return false;
    };
    let product = table.times(x, elements[i]);
    let left = reduced(letters, rules, &more, steps);
    let right = reduced(letters, rules, &words[product as usize], steps);
    is_same(letters, &left, &right)
}

/// Whether they do so for x and each letter.
fn steps_hold_at<A: Allocator>(
    table: &Table<A>,
    elements: &[u16],
    rules: &Rules<A>,
    words: &[Word],
    x: u16,
    steps: u32,
) -> bool
    requires elements { All (λ e. e < table.now.order) elements.now }
    requires letters { length elements.now ≤ LETTERS }
    requires words { length words.now ≡ table.now.order }
    requires x_in { x < table.now.order }
    ensures { IsTrue result → (i : ℕ) → i < length elements.now
        → StepHolds table.now elements.now rules.now.relations.items words.now x i }
{
    for i in 0..elements.len() {
        if !step_holds(table, elements, rules, words, x, i, steps) {
            return false;
        }
    }
    true
}

/// Whether they do so for each element and letter.
fn steps_hold<A: Allocator>(
    table: &Table<A>,
    elements: &[u16],
    rules: &Rules<A>,
    words: &[Word],
    steps: u32,
) -> bool
    requires elements { All (λ e. e < table.now.order) elements.now }
    requires letters { length elements.now ≤ LETTERS }
    requires words { length words.now ≡ table.now.order }
    ensures { IsTrue result → (x i : ℕ) → x < table.now.order → i < length elements.now
        → StepHolds table.now elements.now rules.now.relations.items words.now x i }
{
    for x in 0..table.order() {
        if !steps_hold_at(table, elements, rules, words, x, steps) {
            return false;
        }
    }
    true
}

/// Whether these words show that the relations present the table's monoid, by its elements for the
/// letters a, b, .., where at most `most` rules are looked at for more, and a word is rewritten at
/// most `steps` times.
///
/// False says that it isn't shown: a relation doesn't hold, or relations are missing, or the work
/// isn't enough.
pub fn is_shown<A: Allocator + Copy>(
    alloc: A,
    table: &Table<A>,
    elements: &[u16],
    relations: &[Relation],
    words: &[Word],
    most: usize,
    steps: u32,
) -> Result<bool, Memory>
    requires elements { All (λ e. e < table.now.order) elements.now }
    requires letters { length elements.now ≤ LETTERS }
    ensures presentation { IfOk result (λ shown. IsTrue shown
        → ArePresentation table.now elements.now relations.now) }
    ensures words { IfOk result (λ shown. IsTrue shown
        → AreNamed table.now elements.now words.now) }
{
    let letters = elements.len();
    if words.len() != table.order() as usize || !is_empty(letters, &words[0]) {
        return Ok(false);
    }
    if !uses_first(letters, relations) || !hold(table, elements, relations) {
        return Ok(false);
    }
    if !are_named(table, elements, words) {
        return Ok(false);
    }
    let rules = completed(alloc, letters, relations, most, steps)?;
    let shown = steps_hold(table, elements, &rules, words, steps);
    Ok(shown)
}
