//! Where words stand first in a list.
ghost use Rattle.std.specs.Prelude.{◌≡◌, ◌<◌, IfSome, IsTrue, length};
ghost use Rattle.presented_tables.specs.Elements.{place};
ghost use Rattle.class_tables.specs.Classes.{word_at};
ghost use Rattle.class_tables.specs.Turns.{AreFirsts};

use crate::classes::ListedWords;
use normal_forms::{Exponents, is_word};
use std::alloc::Allocator;

/// The first place of the word in the list, if it is there.
fn first_of<A: Allocator>(list: &ListedWords<A>, word: &Exponents) -> Option<usize>
    ensures { IfSome result (λ k. (k < length list.now) × (place list.now word.now ≡ k) × (word_at list.now k ≡ word.now)) }
{
    for k in 0..list.len() {
        let there = list.get(k)?;
        if is_word(there, word) {
            return Some(k);
        }
    }
    None
}

/// Whether the word is seen to stand first at place `k`.
fn is_first_place<A: Allocator>(list: &ListedWords<A>, word: &Exponents, k: usize) -> bool
    ensures { IsTrue result → place list.now word.now ≡ k }
{
    match first_of(list, word) {
        Some(j) => j == k,
        None => false,
    }
}

/// Whether word `k` is seen not to stand before.
fn is_first_at<A: Allocator>(list: &ListedWords<A>, k: usize) -> bool
    ensures { IsTrue result → place list.now (word_at list.now k) ≡ k }
{
    match list.get(k) {
        Some(word) => is_first_place(list, word, k),
        None => false,
    }
}

/// Whether no word is seen to be in the list twice.
pub(crate) fn are_firsts<A: Allocator>(list: &ListedWords<A>) -> bool
    ensures { IsTrue result → AreFirsts list.now }
{
    for k in 0..list.len() {
        if !is_first_at(list, k) {
            return false;
        }
    }
    true
}

/// The first place of the word in the list, if it is seen to be there.
pub(crate) fn first_place<A: Allocator>(list: &ListedWords<A>, word: &Exponents) -> Option<usize>
    requires { AreFirsts list.now }
    ensures { IfSome result (λ k. (k < length list.now) × (place list.now word.now ≡ k) × (word_at list.now k ≡ word.now)) }
{
    list.find(word)
}
