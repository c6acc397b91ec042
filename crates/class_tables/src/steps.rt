//! Whole periods that a word has more than another one.
ghost use Rattle.std.specs.Prelude.{◌≡◌, ◌<◌, ◌≤◌, ◌+◌, ◌*◌, ℕ, IfSome, length, slice_index};
ghost use Rattle.presentations.specs.declared.TheConstants.{LETTERS};
ghost use Rattle.presentations.specs.Vectors.{plus};
ghost use Rattle.presented_claims.specs.Folds.{at_letter};
ghost use Rattle.presented_claims.specs.Led.{AreWholeAt};

use crate::folding::cycle_at;
use normal_forms::Exponents;
use presentations::LETTERS;
use presented_text::LetterCycle;

/// By how much `u` is larger than `s`, if these are whole periods beyond the threshold, or none.
fn periods_more(top: &LetterCycle, s: u16, u: u16) -> Option<u16>
    ensures sum { IfSome result (λ d. u ≡ s + d) }
    ensures large { IfSome result (λ d. 0 < d → top.now.0 ≤ s) }
    ensures whole { IfSome result (λ d. (k : ℕ) × (d ≡ top.now.1 * k)) }
{
    let d = u.checked_sub(s)?;
    if d == 0 {
        return Some(0);
    }
    if top.period == 0 || s < top.start || d % top.period != 0 {
        return None;
    }
    Some(d)
}

/// The same of letter `i`.
fn periods_at(tops: &[LetterCycle], s: &Exponents, u: &Exponents, i: usize) -> Option<u16>
    requires { i < LETTERS }
    ensures sum { IfSome result (λ d. slice_index u.now i ≡ slice_index s.now i + d) }
    ensures large { IfSome result (λ d. 0 < d → (i < length tops.now) × ((at_letter tops.now i).0 ≤ slice_index s.now i)) }
    ensures whole { IfSome result (λ d. i < length tops.now → (k : ℕ) × (d ≡ (at_letter tops.now i).1 * k)) }
{
    if i < tops.len() {
        let top = cycle_at(tops, i);
        return periods_more(&top, s[i], u[i]);
    }
    if u[i] == s[i] { Some(0) } else { None }
}

/// What the word `u` has more than `s`, if these are whole periods of letters of which `s` has as many as the threshold.
pub(crate) fn periods_between(
    tops: &[LetterCycle],
    s: &Exponents,
    u: &Exponents,
) -> Option<Exponents>
    ensures sum { IfSome result (λ d. u.now ≡ plus s.now d) }
    ensures whole { IfSome result (λ d. length tops.now ≤ LETTERS → AreWholeAt LETTERS tops.now s.now d) }
{
    let mut more = [0; LETTERS];
    for i in 0..LETTERS {
        more[i] = periods_at(tops, s, u, i)?;
    }
    Some(more)
}
