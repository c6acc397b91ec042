//! Critical pairs of rules that don't join.
use crate::faults::Blamed;
use crate::forms::Forms;
use crate::heap_words::{
    HeapRule, HeapWord, beside, common_multiple, have_common, is_before, product,
};
use crate::table::WordTable;
use quotient_search::{Halt, Work};
use std::alloc::Allocator;

/// How many pairs that don't join are looked at in a round.
const MOST_PAIRS: usize = 60;

/// A pair of rules that doesn't join: their least common word, and what they make of it.
#[derive(Clone, Copy)]
pub struct OpenPair {
    one: usize,
    other: usize,
    word: HeapWord,
    left: usize,
    right: usize,
}

/// What a rule makes of a word that has its left word in it.
fn form_by<A: Allocator + Copy>(
    forms: &mut Forms<'_, A>,
    rule: &HeapRule,
    word: &HeapWord,
    work: &mut Work,
) -> Result<usize, Halt> {
    let right = forms.form_of(&rule.right, work)?;
    forms.times(right, &beside(word, &rule.left), work)
}

/// The pairs that don't join of a rule and those before it, as long as they aren't too many.
fn add_open_pairs<A: Allocator + Copy>(
    forms: &mut Forms<'_, A>,
    open: &mut Vec<OpenPair, A>,
    one: usize,
    work: &mut Work,
) -> Result<(), Halt> {
    let rules = forms.rules;
    let Some(rule) = rules.get(one) else {
        return Ok(());
    };
    for (other, before) in rules.iter().enumerate() {
        if other >= one || open.len() >= MOST_PAIRS {
            break;
        }
        work.spend(50)?;
        if !have_common(&rule.left, &before.left) {
            continue;
        }
        let word = common_multiple(&rule.left, &before.left);
        let left = form_by(forms, rule, &word, work)?;
        let right = form_by(forms, before, &word, work)?;
        if left != right {
            open.push(OpenPair {
                one,
                other,
                word,
                left,
                right,
            })?;
        }
    }
    Ok(())
}

/// Pairs that don't join.
pub fn open_pairs<A: Allocator + Copy>(
    alloc: A,
    forms: &mut Forms<'_, A>,
    work: &mut Work,
) -> Result<Vec<OpenPair, A>, Halt> {
    let mut open: Vec<OpenPair, A> = Vec::new(alloc);
    for one in 0..forms.rules.len() {
        add_open_pairs(forms, &mut open, one, work)?;
    }
    Ok(open)
}

impl OpenPair {
    /// A context that tells apart what the rules make, if there is one.
    fn telling<A: Allocator + Copy>(
        &self,
        forms: &mut Forms<'_, A>,
        contexts: &WordTable<A>,
        work: &mut Work,
    ) -> Result<Option<HeapWord>, Halt> {
        for context in contexts.words.iter() {
            let is_p = forms.is_p_beside(self.left, context, work)?;
            if is_p != forms.is_p_beside(self.right, context, work)? {
                return Ok(Some(*context));
            }
        }
        Ok(None)
    }

    /// The rule that joins it.
    fn joined<A: Allocator>(&self, forms: &Forms<'_, A>) -> HeapRule {
        let (one, other) = (forms.table.word(self.left), forms.table.word(self.right));
        if is_before(&forms.part.weights, &one, &other) {
            HeapRule {
                left: other,
                right: one,
            }
        } else {
            HeapRule {
                left: one,
                right: other,
            }
        }
    }

    /// Takes rules for wrong because of it, or joins it where no context tells what it makes apart. Hands out where the
    /// contradiction is.
    pub fn resolve<A: Allocator + Copy>(
        &self,
        forms: &mut Forms<'_, A>,
        contexts: &WordTable<A>,
        blamed: &mut Blamed<A>,
        joining: &mut Vec<HeapRule, A>,
        work: &mut Work,
    ) -> Result<Option<HeapWord>, Halt> {
        let Some(context) = self.telling(forms, contexts, work)? else {
            joining.push(self.joined(forms))?;
            return Ok(None);
        };
        let word = product(&self.word, &context);
        let before = blamed.contexts.len();
        let least = blamed.blame(forms, &word, work)?;
        if blamed.contexts.len() == before {
            blamed.add(self.one, context)?;
            blamed.add(self.other, context)?;
        }
        Ok(Some(least))
    }
}
