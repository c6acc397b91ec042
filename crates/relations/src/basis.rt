//! Whether relations are the reduced Gröbner basis whose irreducible words are listed.
ghost use Rattle.std.specs.Prelude.{◌≡◌, ◌≢◌, ◌<◌, ◌≤◌, ◌↔◌, ℕ, IsTrue, IfOk, All, length, slice_index_or};
ghost use Rattle.presentations.specs.declared.TheConstants.{LETTERS};
ghost use Rattle.presentations.specs.declared.read.Relation.{Relation as Rule};
ghost use Rattle.relations.specs.declared.finding.Form.TheVariants.{Short};
ghost use Rattle.relations.specs.Bases.{AreOfForm, Divides, IsReducedBasis, IsReducible, LeadsOn, Precedes};

use crate::LARGEST_IRREDUNDANT;
use crate::checking::{is_empty, lengthened};
use crate::finding::Form;
use crate::listing::has_word;
use crate::rewriting::comes_before;
use crate::separating::are_irredundant;
use allocation::Memory;
use presentations::{LETTERS, Relation, Word};
use std::alloc::Allocator;

/// Whether the first word is in the second one.
fn divides(letters: usize, v: &Word, w: &Word) -> bool
    requires { letters ≤ LETTERS }
    ensures { IsTrue result ↔ Divides letters v.now w.now }
{
    for i in 0..letters {
        if v[i] > w[i] {
            return false;
        }
    }
    true
}

/// Whether some relation's left word is in the word.
fn is_reducible(letters: usize, relations: &[Relation], word: &Word) -> bool
    requires { letters ≤ LETTERS }
    ensures { IsTrue result ↔ IsReducible letters relations.now word.now }
{
    for relation in relations {
        if divides(letters, &relation.left, word) {
            return true;
        }
    }
    false
}

/// Whether each relation leads down to an irreducible word.
fn lead_down(letters: usize, relations: &[Relation]) -> bool
    requires { letters ≤ LETTERS }
    ensures falls { IsTrue result → All (λ r. Precedes letters r.right r.left) relations.now }
    ensures irreducible { IsTrue result
        → All (λ r. IsReducible letters relations.now r.right → ⊥) relations.now }
{
    for relation in relations {
        if !comes_before(letters, &relation.right, &relation.left) {
            return false;
        }
        if is_reducible(letters, relations, &relation.right) {
            return false;
        }
    }
    true
}

/// Whether the left word of relation `i` is in that of no other one.
fn is_minimal(letters: usize, relations: &[Relation], i: usize) -> bool
    requires letters { letters ≤ LETTERS }
    requires i_in { i < length relations.now }
    ensures { IsTrue result → (k : ℕ) (d : Rule) → k < length relations.now → i ≢ k
        → Divides letters (slice_index_or relations.now i d).left
        (slice_index_or relations.now k d).left → ⊥ }
{
    for k in 0..relations.len() {
        if k == i {
            continue;
        }
        if divides(letters, &relations[i].left, &relations[k].left) {
            return false;
        }
    }
    true
}

/// Whether no relation's left word is in that of another one.
fn are_minimal(letters: usize, relations: &[Relation]) -> bool
    requires { letters ≤ LETTERS }
    ensures { IsTrue result → (i k : ℕ) (d : Rule) → i < length relations.now
        → k < length relations.now → i ≢ k
        → Divides letters (slice_index_or relations.now i d).left
        (slice_index_or relations.now k d).left → ⊥ }
{
    for i in 0..relations.len() {
        if !is_minimal(letters, relations, i) {
            return false;
        }
    }
    true
}

/// Whether the word with letter `i` once more is listed or reducible.
fn leads_on_by(
    letters: usize,
    words: &[Word],
    relations: &[Relation],
    word: &Word,
    i: usize,
) -> bool
    requires letters { letters ≤ LETTERS }
    requires i_in { i < letters }
    ensures { IsTrue result → LeadsOn letters words.now relations.now word.now i }
{
    let Some(more) = lengthened(letters, word, i) else {
        return false;
    };
    if is_reducible(letters, relations, &more) {
        return true;
    }
    has_word(words, &more)
}

/// Whether the word is so with each letter once more.
fn leads_on(letters: usize, words: &[Word], relations: &[Relation], word: &Word) -> bool
    requires { letters ≤ LETTERS }
    ensures { IsTrue result
        → (i : ℕ) → i < letters → LeadsOn letters words.now relations.now word.now i }
{
    for i in 0..letters {
        if !leads_on_by(letters, words, relations, word, i) {
            return false;
        }
    }
    true
}

/// Whether no word of the list is reducible, and each leads on to such a one or to a reducible one.
fn are_irreducible(letters: usize, words: &[Word], relations: &[Relation]) -> bool
    requires { letters ≤ LETTERS }
    ensures listed { IsTrue result
        → All (λ word. IsReducible letters relations.now word → ⊥) words.now }
    ensures on { IsTrue result → All (λ word. (i : ℕ) → i < letters
        → LeadsOn letters words.now relations.now word i) words.now }
{
    for word in words {
        if is_reducible(letters, relations, word) {
            return false;
        }
        if !leads_on(letters, words, relations, word) {
            return false;
        }
    }
    true
}

/// Whether the relations are the reduced Gröbner basis whose irreducible words are the list.
fn is_reduced_basis(letters: usize, words: &[Word], relations: &[Relation]) -> bool
    requires { letters ≤ LETTERS }
    ensures { IsTrue result → IsReducedBasis letters words.now relations.now }
{
    if words.len() == 0 || !is_empty(letters, &words[0]) {
        return false;
    }
    if !lead_down(letters, relations) || !are_minimal(letters, relations) {
        return false;
    }
    are_irreducible(letters, words, relations)
}

/// Whether it is shown that no relation follows from the others, or there are too many words for that.
fn is_short<A: Allocator + Copy>(
    alloc: A,
    letters: usize,
    words: &[Word],
    relations: &[Relation],
) -> Result<bool, Memory>
    requires { letters ≤ LETTERS }
    ensures { IfOk result
        (λ are. IsTrue are → AreOfForm Short letters words.now relations.now) }
{
    if words.len() > LARGEST_IRREDUNDANT {
        return Ok(true);
    }
    let free = are_irredundant(alloc, letters, relations)?;
    Ok(free)
}

/// Whether it is shown that the relations are of the form that is asked for.
pub fn are_of_form<A: Allocator + Copy>(
    alloc: A,
    letters: usize,
    words: &[Word],
    relations: &[Relation],
    form: Form,
) -> Result<bool, Memory>
    requires { letters ≤ LETTERS }
    ensures { IfOk result
        (λ are. IsTrue are → AreOfForm form letters words.now relations.now) }
{
    match form {
        Form::Basis => Ok(is_reduced_basis(letters, words, relations)),
        Form::Short => is_short(alloc, letters, words, relations),
    }
}
