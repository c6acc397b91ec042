//! The test that listed words are the elements.
ghost use Rattle.std.specs.Prelude.{◌≡◌, ◌<◌, ℕ, IsTrue, IfSome, IfOk, false, length, slice_index_or};
ghost use Rattle.presentations.specs.declared.TheConstants.{LETTERS};
ghost use Rattle.presentations.specs.Vectors.{plus, zeros, only};
ghost use Rattle.kept_positions.specs.Numbers.{entry};
ghost use Rattle.presented_claims.specs.Claims.{IsElement, in_portion};
ghost use Rattle.presented_tables.specs.Elements.{element, Takes, AreElements};

use crate::acting::number_at;
use crate::elements::{ListedElements, word_at};
use crate::portion::in_portion;
use crate::presentation::Presented;
use crate::within::is_in;
use allocation::Memory;
use normal_forms::{Exponents, is_word, with_letter};
use presentations::LETTERS;
use std::alloc::Allocator;

/// Whether letter `i` is seen to take element `x` to element `y`.
fn takes<A: Allocator>(
    p: &Presented<A>,
    e: &ListedElements<A>,
    x: usize,
    i: usize,
    y: usize,
) -> bool
    ensures { IsTrue result → Takes p.now e.now (only LETTERS i 1) x y }
{
    let Some(word) = word_at(e, x) else {
        return false;
    };
    let Some(there) = word_at(e, y) else {
        return false;
    };
    let Some(more) = with_letter(&word, i) else {
        return false;
    };
    let Some(form) = p.basis.normal_form(&more) else {
        return false;
    };
    is_word(&form, &there)
}

/// Whether its row is seen to have that element.
fn is_step<A: Allocator>(p: &Presented<A>, e: &ListedElements<A>, x: usize, i: usize) -> bool
    ensures { IsTrue result
        → Takes p.now e.now (only LETTERS i 1) x (entry e.now.steps (length p.now.letters) x i) }
{
    match number_at(&e.steps, p.letters.len(), x, i) {
        Some(y) => takes(p, e, x, i, y),
        None => false,
    }
}

/// Whether the row of element `x` is right.
fn are_steps<A: Allocator>(p: &Presented<A>, e: &ListedElements<A>, x: usize) -> bool
    ensures { IsTrue result → (i : ℕ) → i < length p.now.letters
        → Takes p.now e.now (only LETTERS i 1) x (entry e.now.steps (length p.now.letters) x i) }
{
    for i in 0..p.letters.len() {
        if !is_step(p, e, x, i) {
            return false;
        }
    }
    true
}

/// Whether word `x` is seen to be an element, and its mark the portion's.
fn is_element<A: Allocator>(p: &Presented<A>, e: &ListedElements<A>, x: usize) -> bool
    ensures element { IsTrue result → IsElement p.now (element e.now x) }
    ensures bit { IsTrue result → slice_index_or e.now.bits x false ≡ in_portion p.now (element e.now x) }
{
    let Some(word) = word_at(e, x) else {
        return false;
    };
    let Some(bit) = e.bits.get(x) else {
        return false;
    };
    p.basis.is_standard(&word) && is_in(p.letters.len(), &word) && *bit == in_portion(p, &word)
}

/// Whether word 0 is seen to be that of nothing.
fn is_first<A: Allocator>(e: &ListedElements<A>) -> bool
    ensures { IsTrue result → (0 < length e.now.words) × (element e.now 0 ≡ zeros LETTERS) }
{
    match word_at(e, 0) {
        Some(word) => is_in(0, &word),
        None => false,
    }
}

/// Whether the words are seen to be elements, with their rows and marks.
pub(crate) fn are_elements<A: Allocator>(p: &Presented<A>, e: &ListedElements<A>) -> bool
    ensures { IsTrue result → AreElements p.now e.now }
{
    let _rules = p.basis.rules();
    if !is_first(e) {
        return false;
    }
    for x in 0..e.words.len() {
        if !is_element(p, e, x) {
            return false;
        }
        if !are_steps(p, e, x) {
            return false;
        }
    }
    true
}
