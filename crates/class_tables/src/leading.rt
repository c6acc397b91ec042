//! Where a word leads a class of elements.
ghost use Rattle.std.specs.Prelude.{◌≡◌, ◌<◌, ◌≤◌, ℕ, IfSome, IsTrue, length};
ghost use Rattle.presentations.specs.declared.TheConstants.{LETTERS};
ghost use Rattle.presentations.specs.Vectors.{plus, only};
ghost use Rattle.presentations.specs.Congruences.{Related};
ghost use Rattle.normal_forms.specs.Forms.{IsNormalForm};
ghost use Rattle.presented_claims.specs.Folds.{at_letter};
ghost use Rattle.presented_claims.specs.Led.{weight_of, AreWholeAt, RunsOn};
ghost use Rattle.class_tables.specs.Leads.{TurnsWhole, Leads};

use crate::folding::cycle_at;
use crate::steps::periods_between;
use crate::weighing::weight;
use normal_forms::Exponents;
use presentations::LETTERS;
use presented_tables::{Presented, product};
use presented_text::LetterCycle;
use std::alloc::Allocator;
use std::marker::Model;

/// The word to which a class is led, and for each letter that runs on in the class what a period of it becomes there.
#[derive(Clone, Copy)]
pub struct Led {
    pub to: Exponents,
    pub turns: [Exponents; LETTERS],
}

impl Model for Led {
    ghost use Rattle.class_tables.specs.Leads as leads;

    ghost Value = { leads.Led };

    ghost view = { λ l. record { to = l.to; turns = l.turns } };

    ghost inverse = { λ l. record { to = l.to; turns = l.turns } };
}

/// The power of a letter.
fn power(i: usize, exponent: u16) -> Exponents
    requires { i < LETTERS }
    ensures { result ≡ only LETTERS i exponent }
{
    let mut word = [0; LETTERS];
    word[i] = exponent;
    word
}

/// The normal form of a product of two words, if there is room.
pub(crate) fn form_of<A: Allocator>(
    p: &Presented<A>,
    v: &Exponents,
    w: &Exponents,
) -> Option<Exponents>
    ensures { IfSome result (λ u. IsNormalForm LETTERS p.now.relations (plus v.now w.now) u) }
{
    p.basis.normal_form(&product(v, w)?)
}

/// Whether the word is seen to be no heavier than the other one.
fn is_light(weights: &[u32], word: &Exponents, other: &Exponents) -> Option<bool>
    ensures { IfSome result (λ b. IsTrue b → weight_of weights.now word.now ≤ weight_of weights.now other.now) }
{
    Some(weight(weights, word)? <= weight(weights, other)?)
}

/// What a period of letter `j` becomes beside the word, if these are whole periods, and no heavier.
fn turned<A: Allocator>(
    p: &Presented<A>,
    tops: &[LetterCycle],
    weights: &[u32],
    to: &Exponents,
    step: &Exponents,
) -> Option<Exponents>
    ensures turned { IfSome result (λ d. Related LETTERS p.now.relations (plus to.now step.now) (plus to.now d)) }
    ensures whole { IfSome result (λ d. length tops.now ≤ LETTERS → AreWholeAt LETTERS tops.now to.now d) }
    ensures light { IfSome result (λ d. weight_of weights.now d ≤ weight_of weights.now step.now) }
{
    let form = form_of(p, to, step)?;
    let more = periods_between(tops, to, &form)?;
    if is_light(weights, &more, step)? {
        Some(more)
    } else {
        None
    }
}

/// What a period of letter `j` does, if it runs on in the class `a`.
fn turn_at<A: Allocator>(
    p: &Presented<A>,
    tops: &[LetterCycle],
    folds: &[LetterCycle],
    weights: &[u32],
    a: &Exponents,
    to: &Exponents,
    j: usize,
) -> Option<Exponents>
    requires { j < LETTERS }
    ensures turned { IfSome result (λ d. RunsOn folds.now a.now j
        → Related LETTERS p.now.relations (plus to.now (only LETTERS j (at_letter folds.now j).1)) (plus to.now d)) }
    ensures whole { IfSome result (λ d. RunsOn folds.now a.now j → length tops.now ≤ LETTERS
        → AreWholeAt LETTERS tops.now to.now d) }
    ensures light { IfSome result (λ d. RunsOn folds.now a.now j
        → weight_of weights.now d ≤ weight_of weights.now (only LETTERS j (at_letter folds.now j).1)) }
{
    if j >= folds.len() {
        return Some([0; LETTERS]);
    }
    let fold = cycle_at(folds, j);
    if a[j] < fold.start {
        return Some([0; LETTERS]);
    }
    turned(p, tops, weights, to, &power(j, fold.period))
}

/// Where the word `z` leads the class `a`, if each letter that runs on in it is seen to become whole periods there.
pub(crate) fn lead<A: Allocator>(
    p: &Presented<A>,
    tops: &[LetterCycle],
    folds: &[LetterCycle],
    weights: &[u32],
    a: &Exponents,
    z: &Exponents,
) -> Option<Led>
    ensures { IfSome result (λ l. length tops.now ≤ LETTERS → length folds.now ≤ LETTERS
        → Leads p.now tops.now folds.now weights.now a.now z.now l) }
{
    let to = form_of(p, a, z)?;
    let mut turns = [[0; LETTERS]; LETTERS];
    for j in 0..LETTERS {
        turns[j] = turn_at(p, tops, folds, weights, a, &to, j)?;
    }
    Some(Led { to, turns })
}

/// Whether the word leads the class somewhere, as [`lead`] says. Nothing is promised.
pub(crate) fn leads<A: Allocator>(
    p: &Presented<A>,
    tops: &[LetterCycle],
    folds: &[LetterCycle],
    a: &Exponents,
    z: &Exponents,
) -> bool {
    let Some(to) = form_of(p, a, z) else {
        return false;
    };
    for j in 0..folds.len() {
        if j < LETTERS && turn_at(p, tops, folds, &[], a, &to, j).is_none() {
            return false;
        }
    }
    true
}
