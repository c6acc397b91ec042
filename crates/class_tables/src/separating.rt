//! Whether classes are told apart, or led to lighter words that are never the same.
ghost use Rattle.std.specs.Prelude.{◌≡◌, ◌≢◌, ◌+◌, ◌<◌, ◌≤◌, ◌⊎◌, ℕ, IfSome, IsTrue, true, false, length, slice_index};
ghost use Rattle.presentations.specs.declared.TheConstants.{LETTERS};
ghost use Rattle.kept_positions.specs.Told.{IsTold, mark_of};
ghost use Rattle.presented_claims.specs.Led.{weight_of, RunsOn};
ghost use Rattle.presented_claims.specs.Folds.{at_letter};
ghost use Rattle.class_tables.specs.Classes.{word_at};
ghost use Rattle.class_tables.specs.Leads.{turn_of};
ghost use Rattle.class_tables.specs.Separated.{DoDiffer, HasOwn, HaveOwn, AreLowered, IsLowered, AreSettledClasses};

use crate::folding::cycle_at;
use crate::leading::{Led, lead};
use crate::lists::ClassLists;
use crate::untold::UntoldPairs;
use crate::weighing::weight;
use kept_positions::LabelTables;
use normal_forms::Exponents;
use presentations::LETTERS;
use presented_tables::Presented;
use presented_text::LetterCycle;
use std::alloc::Allocator;

/// Whether letter `j` runs on in the class.
fn runs_on(folds: &[LetterCycle], a: &Exponents, j: usize) -> bool
    requires { j < LETTERS }
    ensures yes { result ≡ true → RunsOn folds.now a.now j }
    ensures no { result ≡ false → RunsOn folds.now a.now j → ⊥ }
{
    if j >= folds.len() {
        return false;
    }
    let fold = cycle_at(folds, j);
    fold.start <= a[j]
}

/// The mark of the image of class `x` beside label `w`.
pub(crate) fn mark<A: Allocator>(
    t: &LabelTables<A>,
    bits: &[bool],
    w: usize,
    x: usize,
) -> Option<bool>
    ensures { IfSome result (λ b. b ≡ mark_of t.now bits.now w x) }
{
    let image = *t.images.get(w.checked_mul(t.classes)?.checked_add(x)?)?;
    match bits.get(image as usize) {
        Some(bit) => Some(*bit),
        None => None,
    }
}

/// Whether label `w` is seen to tell classes `x` and `y` apart.
fn tells<A: Allocator>(
    t: &LabelTables<A>,
    bits: &[bool],
    w: usize,
    x: usize,
    y: usize,
) -> Option<bool>
    ensures { IfSome result (λ b. IsTrue b → mark_of t.now bits.now w x ≢ mark_of t.now bits.now w y) }
{
    Some(mark(t, bits, w, x)? != mark(t, bits, w, y)?)
}

/// Whether the label that may tell them apart does.
fn are_told<A: Allocator>(
    t: &LabelTables<A>,
    bits: &[bool],
    untold: &UntoldPairs<A>,
    x: usize,
    y: usize,
) -> bool
    ensures { IsTrue result → IsTold t.now bits.now x y }
{
    match untold.telling(x, y) {
        Some(w) => w < t.labels && tells(t, bits, w, x, y) == Some(true),
        None => false,
    }
}

/// The exponent of letter `i` of what letter `j` turns into.
fn turn_exponent(led: &Led, j: usize, i: usize) -> u16
    requires turn { j < LETTERS }
    requires letter { i < LETTERS }
    ensures { result ≡ slice_index (turn_of led.now j) i }
{
    let turn = led.turns[j];
    turn[i]
}

/// Whether letter `j` is seen to turn into none of letter `i`, if it runs on in the class.
fn is_none_at(folds: &[LetterCycle], a: &Exponents, led: &Led, j: usize, i: usize) -> bool
    requires turn { j < LETTERS }
    requires letter { i < LETTERS }
    ensures { IsTrue result → RunsOn folds.now a.now j → slice_index (turn_of led.now j) i ≡ 0 }
{
    !runs_on(folds, a, j) || turn_exponent(led, j, i) == 0
}

/// Whether no letter that runs on in the class is seen to turn into letter `i`.
fn stays(folds: &[LetterCycle], a: &Exponents, led: &Led, i: usize) -> bool
    requires { i < LETTERS }
    ensures { IsTrue result → length folds.now ≤ LETTERS → (j : ℕ) → RunsOn folds.now a.now j
        → slice_index (turn_of led.now j) i ≡ 0 }
{
    for j in 0..LETTERS {
        if !is_none_at(folds, a, led, j, i) {
            return false;
        }
    }
    true
}

/// Whether the words to which two classes are led are seen never to have the same of letter `i`.
fn differ_at(
    tops: &[LetterCycle],
    folds: &[LetterCycle],
    a: &Exponents,
    b: &Exponents,
    one: &Led,
    other: &Led,
    i: usize,
) -> bool
    requires { i < LETTERS }
    ensures { IsTrue result → length folds.now ≤ LETTERS → DoDiffer tops.now folds.now a.now b.now one.now other.now i }
{
    if i >= tops.len() {
        return false;
    }
    let top = cycle_at(tops, i);
    if top.period == 0 {
        return false;
    }
    if one.to[i] % top.period != other.to[i] % top.period {
        return true;
    }
    if one.to[i] < other.to[i] {
        return stays(folds, a, one, i);
    }
    if other.to[i] < one.to[i] {
        return stays(folds, b, other, i);
    }
    false
}

/// Whether there is a letter of which they are seen never to have the same.
fn differ(
    tops: &[LetterCycle],
    folds: &[LetterCycle],
    a: &Exponents,
    b: &Exponents,
    one: &Led,
    other: &Led,
) -> bool
    ensures { IsTrue result → length folds.now ≤ LETTERS
        → (i : ℕ) × DoDiffer tops.now folds.now a.now b.now one.now other.now i }
{
    for i in 0..LETTERS {
        if differ_at(tops, folds, a, b, one, other, i) {
            return true;
        }
    }
    false
}

/// Whether letter `k` is letter `j`, or is seen to turn into none of letter `i`, if it runs on in the class.
fn is_other_none(
    folds: &[LetterCycle],
    a: &Exponents,
    led: &Led,
    j: usize,
    i: usize,
    k: usize,
) -> bool
    requires turn { k < LETTERS }
    requires letter { i < LETTERS }
    ensures { IsTrue result → RunsOn folds.now a.now k → j ≢ k → slice_index (turn_of led.now k) i ≡ 0 }
{
    k == j || is_none_at(folds, a, led, k, i)
}

/// Whether letter `j` turns into letter `i`, and no other letter that runs on in the class is seen to.
fn is_own(folds: &[LetterCycle], a: &Exponents, led: &Led, j: usize, i: usize) -> bool
    requires turn { j < LETTERS }
    requires letter { i < LETTERS }
    ensures some { IsTrue result → 0 < slice_index (turn_of led.now j) i }
    ensures alone { IsTrue result → length folds.now ≤ LETTERS → (k : ℕ) → RunsOn folds.now a.now k → j ≢ k
        → slice_index (turn_of led.now k) i ≡ 0 }
{
    for k in 0..LETTERS {
        if !is_other_none(folds, a, led, j, i, k) {
            return false;
        }
    }
    turn_exponent(led, j, i) > 0
}

/// Whether letter `j` is seen to have a letter of its own into which it turns.
fn has_own(folds: &[LetterCycle], a: &Exponents, led: &Led, j: usize) -> bool
    requires { j < LETTERS }
    ensures { IsTrue result → length folds.now ≤ LETTERS → HasOwn folds.now a.now led.now j }
{
    for i in 0..LETTERS {
        if is_own(folds, a, led, j, i) {
            return true;
        }
    }
    false
}

/// Whether it is, if it runs on in the class.
fn has_own_if_on(folds: &[LetterCycle], a: &Exponents, led: &Led, j: usize) -> bool
    requires { j < LETTERS }
    ensures { IsTrue result → length folds.now ≤ LETTERS → RunsOn folds.now a.now j → HasOwn folds.now a.now led.now j }
{
    !runs_on(folds, a, j) || has_own(folds, a, led, j)
}

/// Whether each letter that runs on is.
fn have_own(folds: &[LetterCycle], a: &Exponents, led: &Led) -> bool
    ensures { IsTrue result → length folds.now ≤ LETTERS → HaveOwn folds.now a.now led.now }
{
    for j in 0..LETTERS {
        if !has_own_if_on(folds, a, led, j) {
            return false;
        }
    }
    true
}

/// The weight of both words, if there is room.
fn weight_of_both(weights: &[u32], v: &Exponents, w: &Exponents) -> Option<u64>
    ensures { IfSome result (λ s. s ≡ weight_of weights.now v.now + weight_of weights.now w.now) }
{
    weight(weights, v)?.checked_add(weight(weights, w)?)
}

/// Whether label `w` is seen to lead classes `x` and `y` to lighter words that are never the same.
pub(crate) fn lowers<A: Allocator>(
    p: &Presented<A>,
    l: &ClassLists<A>,
    weights: &[u32],
    x: usize,
    y: usize,
    w: usize,
) -> Option<bool>
    ensures { IfSome result (λ b. IsTrue b → length l.now.base ≤ LETTERS → length l.now.folds ≤ LETTERS
        → AreLowered p.now l.now weights.now x y w) }
{
    let a = l.classes.get(x)?;
    let b = l.classes.get(y)?;
    let z = l.labels.get(w)?;
    let (base, folds) = (l.base.as_slice(), l.folds.as_slice());
    let one = lead(p, base, folds, weights, a, z)?;
    let other = lead(p, base, folds, weights, b, z)?;
    let after = weight_of_both(weights, &one.to, &other.to)?;
    let before = weight_of_both(weights, a, b)?;
    if after >= before {
        return Some(false);
    }
    Some(differ(base, folds, a, b, &one, &other))
}

/// Whether some label of the list is.
fn are_lowered<A: Allocator>(
    p: &Presented<A>,
    l: &ClassLists<A>,
    weights: &[u32],
    labels: &[u32],
    x: usize,
    y: usize,
) -> bool
    ensures { IsTrue result → length l.now.base ≤ LETTERS → length l.now.folds ≤ LETTERS
        → (w : ℕ) × AreLowered p.now l.now weights.now x y w }
{
    for w in labels {
        if lowers(p, l, weights, x, y, *w as usize) == Some(true) {
            return true;
        }
    }
    false
}

/// Whether label `w` is seen to lead class `x` to lighter words, different ones to different ones.
pub(crate) fn lowers_class<A: Allocator>(
    p: &Presented<A>,
    l: &ClassLists<A>,
    weights: &[u32],
    x: usize,
    w: usize,
) -> Option<bool>
    ensures { IfSome result (λ b. IsTrue b → length l.now.base ≤ LETTERS → length l.now.folds ≤ LETTERS
        → IsLowered p.now l.now weights.now x w) }
{
    let a = l.classes.get(x)?;
    let z = l.labels.get(w)?;
    let (base, folds) = (l.base.as_slice(), l.folds.as_slice());
    let one = lead(p, base, folds, weights, a, z)?;
    let after = weight(weights, &one.to)?;
    let before = weight(weights, a)?;
    if after >= before {
        return Some(false);
    }
    Some(have_own(folds, a, &one))
}

/// Whether no letter runs on in the word.
fn runs_none(folds: &[LetterCycle], a: &Exponents) -> bool
    ensures { IsTrue result → (j : ℕ) → RunsOn folds.now a.now j → ⊥ }
{
    if folds.len() > LETTERS {
        return false;
    }
    for j in 0..folds.len() {
        if runs_on(folds, a, j) {
            return false;
        }
    }
    true
}

/// Whether no letter runs on in class `x`.
pub(crate) fn is_alone<A: Allocator>(l: &ClassLists<A>, x: usize) -> bool
    ensures { IsTrue result → (j : ℕ) → RunsOn l.now.folds (word_at l.now.classes x) j → ⊥ }
{
    match l.classes.get(x) {
        Some(a) => runs_none(&l.folds, a),
        None => false,
    }
}

/// Whether class `x` is seen to have one word, or to be lowered by some label of the list.
fn is_class_settled<A: Allocator>(
    p: &Presented<A>,
    l: &ClassLists<A>,
    weights: &[u32],
    labels: &[u32],
    x: usize,
) -> bool
    ensures { IsTrue result → length l.now.base ≤ LETTERS → length l.now.folds ≤ LETTERS
        → ((j : ℕ) → RunsOn l.now.folds (word_at l.now.classes x) j → ⊥) ⊎ ((w : ℕ) × IsLowered p.now l.now weights.now x w) }
{
    if is_alone(l, x) {
        return true;
    }
    for w in labels {
        if lowers_class(p, l, weights, x, *w as usize) == Some(true) {
            return true;
        }
    }
    false
}

/// Whether classes `x` and `y` are seen to be told apart, or lowered.
fn is_pair_settled<A: Allocator>(
    p: &Presented<A>,
    l: &ClassLists<A>,
    t: &LabelTables<A>,
    bits: &[bool],
    untold: &UntoldPairs<A>,
    weights: &[u32],
    labels: &[u32],
    x: usize,
    y: usize,
) -> bool
    ensures { IsTrue result → length l.now.base ≤ LETTERS → length l.now.folds ≤ LETTERS
        → IsTold t.now bits.now x y ⊎ ((w : ℕ) × AreLowered p.now l.now weights.now x y w) }
{
    if are_told(t, bits, untold, x, y) {
        return true;
    }
    are_lowered(p, l, weights, labels, x, y)
}

/// Whether class `x` is, with each one before it.
fn are_settled_with<A: Allocator>(
    p: &Presented<A>,
    l: &ClassLists<A>,
    t: &LabelTables<A>,
    bits: &[bool],
    untold: &UntoldPairs<A>,
    weights: &[u32],
    labels: &[u32],
    x: usize,
) -> bool
    ensures { IsTrue result → length l.now.base ≤ LETTERS → length l.now.folds ≤ LETTERS → (y : ℕ) → y < x
        → IsTold t.now bits.now x y ⊎ ((w : ℕ) × AreLowered p.now l.now weights.now x y w) }
{
    for y in 0..x {
        if !is_pair_settled(p, l, t, bits, untold, weights, labels, x, y) {
            return false;
        }
    }
    true
}

/// Whether all classes are seen to be separated: each pair by some label, and those that none tells apart by one of the
/// list.
pub(crate) fn are_separated<A: Allocator>(
    p: &Presented<A>,
    l: &ClassLists<A>,
    t: &LabelTables<A>,
    bits: &[bool],
    untold: &UntoldPairs<A>,
    weights: &[u32],
    labels: &[u32],
) -> bool
    ensures { IsTrue result → length l.now.base ≤ LETTERS → length l.now.folds ≤ LETTERS
        → AreSettledClasses p.now l.now t.now bits.now weights.now }
{
    for x in 0..l.classes.len() {
        if !is_class_settled(p, l, weights, labels, x) {
            return false;
        }
        if !are_settled_with(p, l, t, bits, untold, weights, labels, x) {
            return false;
        }
    }
    true
}
