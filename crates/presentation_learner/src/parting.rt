//! Where outcomes by two lists of rules begin to differ.
use crate::faults::{Blamed, is_p_by};
use crate::forms::Forms;
use crate::heap_words::{
    HeapRule, HeapWord, ONE, beside, exponent, is_in, lengthened, product, shortened_by,
};
use crate::part::Rest;
use crate::routes::{Change, blame_change, blame_route, change_on};
use quotient_search::{Halt, Work};
use running_pairs::NONE;
use std::alloc::Allocator;

/// How far it is traced down at most.
const DEEPEST: usize = 400;

/// What is found on the way down from a position where outcomes differ.
enum Step {
    /// A position below where they differ, in two parts.
    Below(HeapWord, HeapWord),
    /// A rule of both lists that changes the outcome.
    Common(Change),
    /// One of the further rules that does.
    Further(Change),
    Nothing,
}

/// What a move leaves, as a word.
fn word_of(rest: &Rest) -> HeapWord {
    let mut word = ONE;
    for generator in rest.iter() {
        if *generator != NONE {
            word = lengthened(&word, *generator);
        }
    }
    word
}

/// Whether what a move leaves of a position is P.
fn is_p_after<A: Allocator + Copy>(
    forms: &mut Forms<'_, A>,
    without: &HeapWord,
    rest: &Rest,
    work: &mut Work,
) -> Result<bool, Halt> {
    let from = forms.form_of(without, work)?;
    let to = forms.times_rest(from, rest, work)?;
    forms.is_p(to, work)
}

/// What a move in one heap leaves of a position, in two parts, where outcomes differ.
fn differing_at<A: Allocator + Copy>(
    forms: &mut Forms<'_, A>,
    other: &mut Forms<'_, A>,
    word: &HeapWord,
    letter: usize,
    work: &mut Work,
) -> Result<Option<Step>, Halt> {
    let part = forms.part;
    let without = shortened_by(word, letter);
    for rest in part.rests_of(letter).iter() {
        if is_p_after(forms, &without, rest, work)? != is_p_after(other, &without, rest, work)? {
            let left = word_of(rest);
            return Ok(Some(Step::Below(without, left)));
        }
    }
    Ok(None)
}

/// What a move leaves of a position, in two parts, where outcomes differ.
fn differing<A: Allocator + Copy>(
    forms: &mut Forms<'_, A>,
    other: &mut Forms<'_, A>,
    word: &HeapWord,
    work: &mut Work,
) -> Result<Option<Step>, Halt> {
    for letter in 0..forms.count {
        if exponent(word, letter) > 0 {
            if let Some(found) = differing_at(forms, other, word, letter, work)? {
                return Ok(Some(found));
            }
        }
    }
    Ok(None)
}

/// What one of some rules makes of a position, where outcomes differ.
fn differing_by_rules<A: Allocator + Copy>(
    forms: &mut Forms<'_, A>,
    other: &mut Forms<'_, A>,
    word: &HeapWord,
    work: &mut Work,
) -> Result<Option<Step>, Halt> {
    let rules = other.rules;
    for rule in rules.iter() {
        if is_in(&rule.left, word) {
            let context = beside(word, &rule.left);
            let is_p = is_p_by(forms, rule, word, work)?;
            if is_p != is_p_by(other, rule, word, work)? {
                let right = rule.right;
                return Ok(Some(Step::Below(right, context)));
            }
        }
    }
    Ok(None)
}

/// Whether outcomes of the moves of a position differ.
fn is_parted<A: Allocator + Copy>(
    forms: &mut Forms<'_, A>,
    other: &mut Forms<'_, A>,
    word: &HeapWord,
    work: &mut Work,
) -> Result<bool, Halt> {
    Ok(forms.is_p_by_moves(word, work)? != other.is_p_by_moves(word, work)?)
}

/// The next step down by a change on the way to the normal form by both lists.
fn step_by_change<A: Allocator + Copy>(
    forms: &mut Forms<'_, A>,
    other: &mut Forms<'_, A>,
    from: &HeapWord,
    rest: &HeapWord,
    work: &mut Work,
) -> Result<Step, Halt> {
    let Some(change) = change_on(other, from, rest, work)? else {
        return Ok(Step::Nothing);
    };
    let Some(rule) = forms.rules.get(change.rule) else {
        return Ok(Step::Further(change));
    };
    if is_parted(forms, other, &change.word, work)? {
        let word = change.word;
        return Ok(Step::Below(word, ONE));
    }
    let (right, context) = (rule.right, beside(&change.word, &rule.left));
    if is_parted(forms, other, &product(&right, &context), work)? {
        return Ok(Step::Below(right, context));
    }
    Ok(Step::Common(change))
}

/// The next step down.
fn step_down<A: Allocator + Copy>(
    forms: &mut Forms<'_, A>,
    other: &mut Forms<'_, A>,
    from: &HeapWord,
    rest: &HeapWord,
    work: &mut Work,
) -> Result<Step, Halt> {
    let word = product(from, rest);
    if let Some(step) = differing(forms, other, &word, work)? {
        return Ok(step);
    }
    if let Some(step) = differing_by_rules(forms, other, &word, work)? {
        return Ok(step);
    }
    step_by_change(forms, other, from, rest, work)
}

/// Takes for wrong what makes one of the further rules seem right beside a context, or takes up the context.
fn blame_beside<A: Allocator + Copy>(
    forms: &mut Forms<'_, A>,
    rule: &HeapRule,
    word: &HeapWord,
    blamed: &mut Blamed<A>,
    work: &mut Work,
) -> Result<Option<HeapWord>, Halt> {
    let context = beside(word, &rule.left);
    let place = blame_route(forms, &rule.left, &context, blamed, work)?;
    if place.is_some() {
        return Ok(place);
    }
    let place = blame_route(forms, &rule.right, &context, blamed, work)?;
    if place.is_none() {
        blamed.see(context)?;
    }
    Ok(place)
}

/// Traces down from a position where outcomes by rules, and by these and some more, begin to differ. Takes rules for
/// wrong there, or hands out contexts beside which those more are wrong.
pub fn trace_parting<A: Allocator + Copy>(
    forms: &mut Forms<'_, A>,
    other: &mut Forms<'_, A>,
    word: &HeapWord,
    blamed: &mut Blamed<A>,
    work: &mut Work,
) -> Result<Option<HeapWord>, Halt> {
    let (mut from, mut rest) = (ONE, *word);
    for step in 0..DEEPEST {
        let place = blame_route(forms, &from, &rest, blamed, work)?;
        if place.is_some() {
            return Ok(place);
        }
        let next = step_down(forms, other, &from, &rest, work)?;
        match next {
            Step::Below(one, two) => {
                from = one;
                rest = two;
            }
            Step::Common(change) => return blame_change(forms, change, blamed, work),
            Step::Further(change) => {
                let rules = other.rules;
                let Some(rule) = rules.get(change.rule) else {
                    break;
                };
                return blame_beside(forms, rule, &change.word, blamed, work);
            }
            Step::Nothing => break,
        }
    }
    Ok(None)
}
