//! Whether a word with large exponents is in the portion.
ghost use Rattle.std.specs.Prelude.{◌≡◌, ◌<◌, ◌↔◌, IsTrue, nat_eq, slice_index};
ghost use Rattle.presentations.specs.declared.TheConstants.{LETTERS};
ghost use Rattle.std.specs.List.{list_any};
ghost use Rattle.std.specs.Cmp.Lexicographic.{pointwise};
ghost use Rattle.presented_claims.specs.Claims.{cycled_exponent, cycled, in_portion};

use crate::wide::WideWord;
use normal_forms::Exponents;
use presentations::LETTERS;
use presented_tables::Presented;
use presented_text::LetterCycle;
use std::alloc::Allocator;

/// The exponent below the end of the first period that an exponent stands for.
fn cycled_exponent(cycle: &LetterCycle, e: u128) -> u128
    ensures { result ≡ cycled_exponent cycle.now e }
{
    let (start, period) = (cycle.start as u128, cycle.period as u128);
    if e < start || period == 0 {
        return e;
    }
    start + (e - start) % period
}

/// Exponent `i` of the word, in its first period if it has a cycle.
fn exponent_at(cycles: &[LetterCycle], word: &WideWord, i: usize) -> u128
    requires { i < LETTERS }
    ensures { result ≡ slice_index (cycled cycles.now word.now) i }
{
    if i < cycles.len() {
        cycled_exponent(&cycles[i], word[i])
    } else {
        word[i]
    }
}

/// The word with each exponent in its first period, of each letter that has a cycle.
fn cycled_word(cycles: &[LetterCycle], word: &WideWord) -> WideWord
    ensures { result ≡ cycled cycles.now word.now }
{
    let mut made = *word;
    for i in 0..LETTERS {
        made[i] = exponent_at(cycles, word, i);
    }
    made
}

/// Whether the two words are the same.
fn is_word(word: &WideWord, other: &Exponents) -> bool
    ensures { IsTrue result ↔ (word.now ≡ other.now) }
{
    for i in 0..LETTERS {
        if word[i] != other[i] as u128 {
            return false;
        }
    }
    true
}

/// Whether the word is in the list.
fn is_listed(list: &[Exponents], word: &WideWord) -> bool
    ensures { result ≡ list_any (pointwise nat_eq word.now) list.now }
{
    for i in 0..list.len() {
        let other = &list[i];
        if is_word(word, other) {
            return true;
        }
    }
    false
}

/// Whether the word is in the portion.
pub(crate) fn in_portion<A: Allocator>(p: &Presented<A>, word: &WideWord) -> bool
    ensures { result ≡ in_portion p.now word.now }
{
    is_listed(
        p.portion.as_slice(),
        &cycled_word(p.cycles.as_slice(), word),
    )
}
