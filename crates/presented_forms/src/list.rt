//! Whether the list of heaps is as short as can be.
ghost use Rattle.std.specs.Prelude.{◌≡◌, ◌+◌, ◌-◌, ◌<◌, ◌≤◌, ℕ, true, IsTrue, is_some};
ghost use Rattle.presented_text.specs.Said.{IsInRanges};
ghost use Rattle.presented_claims.specs.Claims.{has_word, listed_heap, listed_word};
ghost use Rattle.presented_forms.specs.Only.{IsLeastList, WordsRepeat};

use normal_forms::Exponents;
use presented_text::PresentedText;
use std::alloc::Allocator;

/// The heap of the list whose word a heap has, or 0.
fn heap_in_list<A: Allocator>(text: &PresentedText<A>, n: u32) -> u32
    requires { IsInRanges text.now }
    ensures { result ≡ listed_heap text.now n }
{
    let heaps = text.heaps as u32;
    let period = text.period as u32;
    if n <= heaps {
        return n;
    }
    if period == 0 {
        return 0;
    }
    let start = heaps - period + 1;
    start + (n - start) % period
}

/// The word that the list has for its heap `n`.
fn word_in_list<A: Allocator>(text: &PresentedText<A>, n: u32) -> Option<Exponents>
    requires { IsInRanges text.now }
    ensures { result ≡ listed_word text.now n }
{
    if n == 0 {
        return None;
    }
    match text.words.get((n - 1) as usize) {
        Some(word) => *word,
        None => None,
    }
}

/// The word of a heap, if it has one.
fn word_of<A: Allocator>(text: &PresentedText<A>, n: u32) -> Option<Exponents>
    requires { IsInRanges text.now }
    ensures { result ≡ listed_word text.now (listed_heap text.now n) }
{
    word_in_list(text, heap_in_list(text, n))
}

/// Whether two heaps have different words, or one of them alone has one.
fn are_different(one: Option<Exponents>, other: Option<Exponents>) -> bool
    ensures { IsTrue result → one ≡ other → ⊥ }
{
    match (one, other) {
        (Some(v), Some(w)) => v != w,
        (None, None) => false,
        _ => true,
    }
}

/// Whether words don't repeat after so many heaps, from one heap of the list on.
fn is_broken<A: Allocator>(text: &PresentedText<A>, start: u32, more: u32) -> bool
    requires ranges { IsInRanges text.now }
    requires few { more ≤ 65535 }
    ensures { IsTrue result → WordsRepeat text.now start more → ⊥ }
{
    for n in start..text.heaps as u32 + 1 {
        if are_different(word_of(text, n + more), word_of(text, n)) {
            return true;
        }
    }
    false
}

/// Whether words repeat after no smaller number of heaps, from one heap of the list on.
fn is_least_from<A: Allocator>(text: &PresentedText<A>, start: u32, period: u16) -> bool
    requires { IsInRanges text.now }
    ensures { IsTrue result → (p : ℕ) → 0 < p → p < period → WordsRepeat text.now start p → ⊥ }
{
    for more in 1..period {
        if !is_broken(text, start, more as u32) {
            return false;
        }
    }
    true
}

/// Whether no smaller period serves.
fn is_least_period<A: Allocator>(text: &PresentedText<A>) -> bool
    requires { IsInRanges text.now }
    ensures { IsTrue result → (p : ℕ) → 0 < p → p < text.now.period
        → WordsRepeat text.now (text.now.heaps - text.now.period + 1) p → ⊥ }
{
    let (heaps, period) = (text.heaps as u32, text.period as u32);
    is_least_from(text, heaps - period + 1, text.period)
}

/// Whether the period serves from no earlier heap.
fn is_earliest<A: Allocator>(text: &PresentedText<A>) -> bool
    requires { IsInRanges text.now }
    ensures { IsTrue result → text.now.period < text.now.heaps
        → WordsRepeat text.now (text.now.heaps - text.now.period) text.now.period → ⊥ }
{
    if text.period >= text.heaps {
        return true;
    }
    is_broken(
        text,
        text.heaps as u32 - text.period as u32,
        text.period as u32,
    )
}

/// Whether some heap behind the list has a word.
fn goes_on<A: Allocator>(text: &PresentedText<A>) -> bool
    requires { IsInRanges text.now }
    ensures { IsTrue result → (n : ℕ) × (text.now.heaps < n) × (has_word text.now n ≡ true) }
{
    let last = text.heaps as u32;
    for n in last + 1..last + text.period as u32 + 1 {
        if word_of(text, n).is_some() {
            return true;
        }
    }
    false
}

/// Whether the last heap of the list has a word.
fn is_last_some<A: Allocator>(text: &PresentedText<A>) -> bool
    requires { IsInRanges text.now }
    ensures { IsTrue result → is_some (listed_word text.now text.now.heaps) ≡ true }
{
    word_in_list(text, text.heaps as u32).is_some()
}

/// Whether the list of a whole game is as short as can be.
fn has_least_period<A: Allocator>(text: &PresentedText<A>) -> bool
    requires ranges { IsInRanges text.now }
    requires some { 0 < text.now.period }
    ensures { IsTrue result → IsLeastList text.now }
{
    if !goes_on(text) {
        return false;
    }
    if !is_least_period(text) {
        return false;
    }
    is_earliest(text)
}

/// Whether the list is as short as can be.
pub(crate) fn is_least_list<A: Allocator>(text: &PresentedText<A>) -> bool
    requires { IsInRanges text.now }
    ensures { IsTrue result → IsLeastList text.now }
{
    if text.period == 0 {
        return is_last_some(text);
    }
    has_least_period(text)
}
