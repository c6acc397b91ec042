//! Rules that are wrong: traced down from positions at which outcomes contradict each other.
use crate::forms::Forms;
use crate::heap_words::{
    GENERATORS, HeapRule, HeapWord, beside, changed_by, exponent, is_before, is_in, lengthened,
    shortened_by,
};
use crate::part::Rest;
use quotient_search::{Halt, Work};
use running_pairs::{NONE, byte, put_byte};
use std::alloc::Allocator;

/// How far a contradiction is traced down at most.
const DEEPEST: usize = 400;

/// Which rules of a round are taken for wrong, and the words beside which they are seen to be.
#[derive(Drop)]
pub struct Blamed<A: Allocator> {
    marks: Vec<u8, A>,
    pub contexts: Vec<HeapWord, A>,
    /// The number of the rule of each context, or `NONE`.
    pub rules: Vec<usize, A>,
}

/// Whether a position is P by a rule whose left word is in it.
pub fn is_p_by<A: Allocator + Copy>(
    forms: &mut Forms<'_, A>,
    rule: &HeapRule,
    word: &HeapWord,
    work: &mut Work,
) -> Result<bool, Halt> {
    let right = forms.form_of(&rule.right, work)?;
    forms.is_p_beside(right, &beside(word, &rule.left), work)
}

/// Whether the outcome of a position's moves isn't that by some rule.
fn is_torn<A: Allocator + Copy>(
    forms: &mut Forms<'_, A>,
    word: &HeapWord,
    work: &mut Work,
) -> Result<bool, Halt> {
    let rules = forms.rules;
    work.spend(rules.len().saturating_mul(4).saturating_add(40))?;
    for rule in rules.iter() {
        if is_in(&rule.left, word)
            && is_p_by(forms, rule, word, work)? != forms.is_p_by_moves(word, work)?
        {
            return Ok(true);
        }
    }
    Ok(false)
}

/// A torn position that a rule makes of a position, if there is one.
fn torn_by_rules<A: Allocator + Copy>(
    forms: &mut Forms<'_, A>,
    word: &HeapWord,
    work: &mut Work,
) -> Result<Option<HeapWord>, Halt> {
    let rules = forms.rules;
    for rule in rules.iter() {
        if is_in(&rule.left, word) {
            let below = changed_by(rule, word);
            if is_torn(forms, &below, work)? {
                return Ok(Some(below));
            }
        }
    }
    Ok(None)
}

/// The position with what a move leaves in place of nothing.
fn with_rest(word: &HeapWord, rest: &Rest) -> HeapWord {
    let mut more = *word;
    for generator in rest.iter() {
        if *generator != NONE {
            more = lengthened(&more, *generator);
        }
    }
    more
}

/// A torn position that a move in one heap of a position makes, if there is one.
fn torn_by_moves<A: Allocator + Copy>(
    forms: &mut Forms<'_, A>,
    word: &HeapWord,
    letter: usize,
    work: &mut Work,
) -> Result<Option<HeapWord>, Halt> {
    let part = forms.part;
    let without = shortened_by(word, letter);
    for rest in part.rests_of(letter).iter() {
        let below = with_rest(&without, rest);
        if is_torn(forms, &below, work)? {
            return Ok(Some(below));
        }
    }
    Ok(None)
}

/// A torn position just below a position, if there is one.
fn torn_below<A: Allocator + Copy>(
    forms: &mut Forms<'_, A>,
    word: &HeapWord,
    work: &mut Work,
) -> Result<Option<HeapWord>, Halt> {
    let mut below = torn_by_rules(forms, word, work)?;
    for letter in 0..GENERATORS {
        if below.is_some() {
            break;
        }
        if exponent(word, letter) > 0 {
            below = torn_by_moves(forms, word, letter, work)?;
        }
    }
    Ok(below)
}

/// From a position that is torn to one below which none is, and another position itself.
fn least_torn<A: Allocator + Copy>(
    forms: &mut Forms<'_, A>,
    word: &HeapWord,
    work: &mut Work,
) -> Result<HeapWord, Halt> {
    let mut least = *word;
    if !is_torn(forms, word, work)? {
        return Ok(least);
    }
    for _ in 0..DEEPEST {
        let Some(below) = torn_below(forms, &least, work)? else {
            break;
        };
        least = below;
    }
    Ok(least)
}

impl<A: Allocator + Copy> Blamed<A> {
    /// No rule yet, of so many.
    pub fn new(alloc: A, rules: usize) -> Result<Blamed<A>, Halt> {
        Ok(Blamed {
            marks: vec![in alloc; 0u8; rules]?,
            contexts: Vec::new(alloc),
            rules: Vec::new(alloc),
        })
    }

    /// Takes the rules for wrong by which the least contradiction below a position comes, and hands out where it is.
    pub fn blame(
        &mut self,
        forms: &mut Forms<'_, A>,
        word: &HeapWord,
        work: &mut Work,
    ) -> Result<HeapWord, Halt> {
        let least = least_torn(forms, word, work)?;
        let rules = forms.rules;
        for (number, rule) in rules.iter().enumerate() {
            if is_in(&rule.left, &least)
                && is_p_by(forms, rule, &least, work)? != forms.is_p_by_moves(&least, work)?
            {
                self.add(number, beside(&least, &rule.left))?;
            }
        }
        Ok(least)
    }
}

impl<A: Allocator> Blamed<A> {
    /// Takes a rule for wrong beside a word.
    pub fn add(&mut self, rule: usize, context: HeapWord) -> Result<(), Halt> {
        put_byte(&mut self.marks, rule, 1);
        self.rules.push(rule)?;
        self.contexts.push(context).map_err(Halt::from)
    }

    /// Takes up a context without a rule.
    pub fn see(&mut self, context: HeapWord) -> Result<(), Halt> {
        self.rules.push(NONE)?;
        self.contexts.push(context).map_err(Halt::from)
    }

    /// Takes for wrong each rule whose left word is in a position.
    pub fn add_all_in(&mut self, rules: &[HeapRule], word: &HeapWord) -> Result<(), Halt> {
        for (number, rule) in rules.iter().enumerate() {
            if is_in(&rule.left, word) {
                self.add(number, beside(word, &rule.left))?;
            }
        }
        Ok(())
    }

    /// Takes for wrong each rule whose left word comes before a position.
    pub fn add_all_before(
        &mut self,
        rules: &[HeapRule],
        weights: &[usize],
        word: &HeapWord,
    ) -> Result<(), Halt> {
        for (number, rule) in rules.iter().enumerate() {
            if is_before(weights, &rule.left, word) {
                self.add(number, beside(word, &rule.left))?;
            }
        }
        Ok(())
    }

    /// Whether no rule is taken for wrong.
    pub fn is_empty(&self) -> bool {
        self.contexts.is_empty()
    }

    /// Whether a rule is taken for wrong.
    pub fn has(&self, rule: usize) -> bool {
        byte(&self.marks, rule) == 1
    }
}
