//! Whether cycles are the least ones.
ghost use Rattle.std.specs.Prelude.{◌≡◌, ◌≤◌, ◌<◌, ◌-◌, ◌+◌, ◌⊎◌, ℕ, IsTrue, length, slice_set, slice_index_or, Contains};
ghost use Rattle.presentations.specs.declared.TheConstants.{LETTERS};
ghost use Rattle.presented_claims.specs.Claims.{cycled_exponent};
ghost use Rattle.presented_forms.specs.Shown.{Breaks, Falls, IsShownLeast};

use normal_forms::Exponents;
use presentations::LETTERS;
use presented_text::LetterCycle;

/// The exponent below the end of the first period that the sum of two stands for.
fn exponent_after(cycle: LetterCycle, exponent: u16, more: u16) -> u32
    requires { 0 < cycle.1 }
    ensures { result ≡ cycled_exponent cycle (exponent + more) }
{
    let sum = exponent as u32 + more as u32;
    let start = cycle.start as u32;
    if sum < start {
        sum
    } else {
        start + (sum - start) % cycle.period as u32
    }
}

/// Whether the word, with this exponent of letter `i`, isn't in the list.
fn is_missing(words: &[Exponents], word: &Exponents, i: usize, exponent: u32) -> bool
    requires { i < LETTERS }
    ensures { IsTrue result → Contains words.now (slice_set word.now i exponent) → ⊥ }
{
    if exponent > 65535 {
        return false;
    }
    let mut other = *word;
    other[i] = exponent as u16;
    !words.contains(&other)
}

/// Whether some word of the list, with at least so many of letter `i`, isn't in it with so many more.
fn breaks(cycle: LetterCycle, words: &[Exponents], i: usize, least: u16, more: u16) -> bool
    requires letter { i < LETTERS }
    requires some { 0 < cycle.1 }
    ensures { IsTrue result → Breaks cycle words.now i least more }
{
    for k in 0..words.len() {
        let word = &words[k];
        if word[i] >= least && is_missing(words, word, i, exponent_after(cycle, word[i], more)) {
            return true;
        }
    }
    false
}

/// Whether some word of the list isn't in it with one of letter `i` less than the cycle's start, a period before.
fn falls(cycle: LetterCycle, words: &[Exponents], i: usize) -> bool
    requires letter { i < LETTERS }
    requires start { 0 < cycle.0 }
    ensures { IsTrue result → Falls cycle words.now i }
{
    let before = cycle.start - 1;
    let last = before as u32 + cycle.period as u32;
    for k in 0..words.len() {
        let word = &words[k];
        if word[i] as u32 == last && is_missing(words, word, i, before as u32) {
            return true;
        }
    }
    false
}

/// Whether no smaller period serves.
fn is_least_period(cycle: LetterCycle, words: &[Exponents], i: usize) -> bool
    requires letter { i < LETTERS }
    requires some { 0 < cycle.1 }
    ensures { IsTrue result → (p : ℕ) → 0 < p → p < cycle.1 → Breaks cycle words.now i cycle.0 p }
{
    let (start, period) = (cycle.start, cycle.period);
    for more in 1..period {
        if !breaks(cycle, words, i, start, more) {
            return false;
        }
    }
    true
}

/// Whether the period serves from no earlier start.
fn is_earliest(cycle: LetterCycle, words: &[Exponents], i: usize) -> bool
    requires letter { i < LETTERS }
    requires some { 0 < cycle.1 }
    requires start { 0 < cycle.0 }
    ensures { IsTrue result → Breaks cycle words.now i (cycle.0 - 1) cycle.1 ⊎ Falls cycle words.now i }
{
    let (before, period) = (cycle.start - 1, cycle.period);
    if breaks(cycle, words, i, before, period) {
        return true;
    }
    falls(cycle, words, i)
}

/// Whether letter `i` has its least cycle.
fn is_least_cycle(cycle: LetterCycle, words: &[Exponents], i: usize) -> bool
    requires { i < LETTERS }
    ensures { IsTrue result → IsShownLeast cycle words.now i }
{
    if cycle.period == 0 {
        return false;
    }
    if cycle.start > 0 && !is_earliest(cycle, words, i) {
        return false;
    }
    is_least_period(cycle, words, i)
}

/// Whether all letters have their least cycles.
pub(crate) fn are_least_cycles(cycles: &[LetterCycle], words: &[Exponents]) -> bool
    requires { length cycles.now ≤ LETTERS }
    ensures { IsTrue result → (i : ℕ) (d : ℕ × ℕ) → i < length cycles.now
        → IsShownLeast (slice_index_or cycles.now i d) words.now i }
{
    for i in 0..cycles.len() {
        if !is_least_cycle(cycles[i], words, i) {
            return false;
        }
    }
    true
}
