//! Which heaps have options, and whether these leave the presentation's heaps.
ghost use Rattle.std.specs.Prelude.{◌≡◌, ◌≤◌, ◌<◌, ◌↔◌, ℕ, List, IsTrue, IfSome, true, false, None, length};
ghost use Rattle.misere_theory.specs.Games.{HeapOption, IsPosition};
ghost use Rattle.heap_options.specs.Exact.{heaps_of};
ghost use Rattle.presented_tables.specs.Tested.{HasWord};
ghost use Rattle.presented_tables.specs.Faults.{LeavesOut};

use crate::presentation::Presented;
use heap_options::{Left, options, options_are_exact};
use octal_code::Code;
use std::alloc::Allocator;

/// Whether the heap has an option.
pub fn has_option(code: &Code, n: u64) -> bool
    ensures { IsTrue result ↔ ((H : List ℕ) × HeapOption code.now n H) }
{
    options_are_exact();
    options(code, n).next().is_some()
}

/// Whether all heaps that are left have a word.
fn have_words<A: Allocator>(p: &Presented<A>, left: Left) -> bool
    ensures { IsTrue result ↔ IsPosition (HasWord p.now) (heaps_of left) }
{
    match left {
        Left::Nothing => true,
        Left::One(a) => p.has_word(a),
        Left::Two(a, b) => p.has_word(a) && p.has_word(b),
        Left::Three(a, b, c) => p.has_word(a) && p.has_word(b) && p.has_word(c),
    }
}

/// Whether some option of the heap has a heap without a word.
fn leaves<A: Allocator>(p: &Presented<A>, n: u64) -> bool
    requires { HasWord p.now n }
    ensures leaves { result ≡ true → LeavesOut p.now n }
    ensures stays { result ≡ false → (H : List ℕ) → HeapOption p.now.code n H → IsPosition (HasWord p.now) H }
{
    options_are_exact();
    for left in options(&p.code, n) {
        if !have_words(p, left) {
            return true;
        }
    }
    false
}

/// Whether the heap has a word, and some option of it has a heap without one.
fn is_left<A: Allocator>(p: &Presented<A>, n: u64) -> bool
    ensures leaves { result ≡ true → LeavesOut p.now n }
    ensures stays { result ≡ false → HasWord p.now n → (H : List ℕ) → HeapOption p.now.code n H
        → IsPosition (HasWord p.now) H }
{
    p.has_word(n) && leaves(p, n)
}

/// The first heap of the list that has such an option.
pub fn heap_that_leaves<A: Allocator>(p: &Presented<A>) -> Option<u64>
    ensures leaves { IfSome result (λ n. LeavesOut p.now n) }
    ensures stays { result ≡ None → (n : ℕ) → n ≤ p.now.heaps → HasWord p.now n → (H : List ℕ)
        → HeapOption p.now.code n H → IsPosition (HasWord p.now) H }
{
    for n in 0..p.heaps as u64 + 1 {
        if is_left(p, n) {
            return Some(n);
        }
    }
    None
}
