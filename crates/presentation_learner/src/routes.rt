//! Contradictions on the way from words to their normal forms.
use crate::faults::{Blamed, is_p_by};
use crate::forms::Forms;
use crate::heap_words::{
    GENERATORS, HeapWord, ONE, beside, changed_by, exponent, first_in, lengthened, product,
    shortened_by,
};
use quotient_search::{Halt, Work};
use std::alloc::Allocator;

/// How far a contradiction is traced down at most.
const DEEPEST: usize = 400;

/// A position and a rule that changes the outcome of its moves.
#[derive(Clone, Copy)]
pub struct Change {
    pub word: HeapWord,
    pub rule: usize,
}

/// Where the outcome changes while a word is brought to its normal form beside what comes later.
fn change_within<A: Allocator + Copy>(
    forms: &mut Forms<'_, A>,
    word: &mut HeapWord,
    later: &HeapWord,
    work: &mut Work,
) -> Result<Option<Change>, Halt> {
    let rules = forms.rules;
    for _ in 0..u64::MAX {
        work.spend(rules.len().saturating_mul(4).saturating_add(40))?;
        let Some(number) = first_in(rules, word) else {
            return Ok(None);
        };
        let Some(rule) = rules.get(number) else {
            return Ok(None);
        };
        let next = changed_by(rule, word);
        let here = product(word, later);
        let is_p = forms.is_p_by_moves(&here, work)?;
        if is_p != forms.is_p_by_moves(&product(&next, later), work)? {
            return Ok(Some(Change {
                word: here,
                rule: number,
            }));
        }
        *word = next;
    }
    Err(Halt::Work)
}

/// Where the outcome changes while the generators of a part are put to a word, one after another.
fn change_along<A: Allocator + Copy>(
    forms: &mut Forms<'_, A>,
    word: &mut HeapWord,
    later: &mut HeapWord,
    part: &HeapWord,
    work: &mut Work,
) -> Result<Option<Change>, Halt> {
    for generator in 0..GENERATORS {
        for _ in 0..exponent(part, generator) {
            *word = lengthened(word, generator);
            *later = shortened_by(later, generator);
            if let Some(change) = change_within(forms, word, later, work)? {
                return Ok(Some(change));
            }
        }
    }
    Ok(None)
}

/// Where the outcome changes while a position in two parts is brought to its normal form, the first part first.
pub fn change_on<A: Allocator + Copy>(
    forms: &mut Forms<'_, A>,
    from: &HeapWord,
    rest: &HeapWord,
    work: &mut Work,
) -> Result<Option<Change>, Halt> {
    let mut word = ONE;
    let mut later = product(from, rest);
    let change = change_along(forms, &mut word, &mut later, from, work)?;
    if change.is_some() {
        return Ok(change);
    }
    change_along(forms, &mut word, &mut later, rest, work)
}

/// Traces a change of the outcome on the way to a normal form down to a rule that is wrong, if there is one.
pub fn blame_route<A: Allocator + Copy>(
    forms: &mut Forms<'_, A>,
    from: &HeapWord,
    rest: &HeapWord,
    blamed: &mut Blamed<A>,
    work: &mut Work,
) -> Result<Option<HeapWord>, Halt> {
    match change_on(forms, from, rest, work)? {
        Some(change) => blame_change(forms, change, blamed, work),
        None => Ok(None),
    }
}

/// Traces a change of the outcome down to a rule that is wrong, if there is one.
pub fn blame_change<A: Allocator + Copy>(
    forms: &mut Forms<'_, A>,
    change: Change,
    blamed: &mut Blamed<A>,
    work: &mut Work,
) -> Result<Option<HeapWord>, Halt> {
    let rules = forms.rules;
    let mut change = change;
    for _ in 0..DEEPEST {
        let Some(rule) = rules.get(change.rule) else {
            break;
        };
        let is_p = forms.is_p_by_moves(&change.word, work)?;
        if is_p_by(forms, rule, &change.word, work)? != is_p {
            return Ok(Some(blamed.blame(forms, &change.word, work)?));
        }
        let rest = beside(&change.word, &rule.left);
        let Some(next) = change_on(forms, &rule.right, &rest, work)? else {
            break;
        };
        change = next;
    }
    Ok(None)
}
