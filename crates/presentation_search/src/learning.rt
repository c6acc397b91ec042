//! Relations between letters, learned word by word.
use crate::contexts::is_within;
use crate::telling::{Contexts, Met, Tree};
use crate::values::Value;
use normal_forms::{Exponents, Rule};
use presentation_learner::{ONE, is_reducible_at, last_letter, lengthened};
use quotient_search::{Halt, Work};
use std::alloc::Allocator;

/// The most standard words that are looked at.
const MOST_WORDS: usize = 400_000;

/// The most relations.
const MOST_RELATIONS: usize = 4096;

/// The most letters of a word that is looked at.
pub const LONGEST_WORD: u32 = 4096;

/// How far it goes: values in a window, and words of so many letters.
#[derive(Clone, Copy)]
pub struct WordExtent {
    pub window: u32,
    pub length: u32,
}

/// Standard words by their order, their values, and the relations that were found, by the order of their left words.
#[derive(Drop)]
pub struct Learned<A: Allocator> {
    pub words: Vec<Exponents, A>,
    pub values: Vec<Value, A>,
    pub rules: Vec<Rule, A>,
    tree: Tree<A>,
}

impl<A: Allocator> Learned<A> {
    fn word(&self, item: usize) -> Exponents {
        self.words.get(item).copied().unwrap_or(ONE)
    }

    fn value(&self, item: usize) -> Value {
        self.values.get(item).copied().unwrap_or(Value::ONE)
    }

    /// Puts in a word: as a standard one, or as the left word of a relation.
    fn put(
        &mut self,
        contexts: &mut Contexts<'_, A>,
        word: Exponents,
        value: Value,
        work: &mut Work,
    ) -> Result<(), Halt> {
        match self.tree.meet(contexts, &self.values, value, work)? {
            Met::Item(item) => {
                let right = self.word(item);
                self.rules.push(Rule { left: word, right })?;
            }
            Met::Apart { node, context } => {
                let item = self.words.len();
                self.tree.grow(contexts, node, context, item, value)?;
                self.words.push(word)?;
                self.values.push(value)?;
            }
        }
        if self.words.len() > MOST_WORDS || self.rules.len() > MOST_RELATIONS {
            return Err(Halt::TooLarge);
        }
        Ok(())
    }

    /// Takes up a standard word and a letter more, unless a left word is in it.
    fn lengthen(
        &mut self,
        contexts: &mut Contexts<'_, A>,
        letters: &[Value],
        window: u32,
        item: usize,
        work: &mut Work,
    ) -> Result<(), Halt> {
        let word = self.word(item);
        for letter in last_letter(&word)..letters.len() {
            let by = letters.get(letter).copied().unwrap_or(Value::ONE);
            let value = contexts.values.times(self.value(item), by);
            if !is_within(window, value) {
                continue;
            }
            work.spend(self.rules.len().saturating_mul(4))?;
            let longer = lengthened(&word, letter);
            if !is_reducible_at(&self.rules, &longer, letter) {
                self.put(contexts, longer, value, work)?;
            }
        }
        Ok(())
    }

    /// The number of the standard word that a value is alike, if there is one.
    pub fn find(
        &self,
        contexts: &mut Contexts<'_, A>,
        value: Value,
        work: &mut Work,
    ) -> Result<Option<usize>, Halt> {
        match self.tree.meet(contexts, &self.values, value, work)? {
            Met::Item(item) => Ok(Some(item)),
            Met::Apart { .. } => Ok(None),
        }
    }
}

/// What is learned of letters that have these values.
pub fn learn<A: Allocator + Copy>(
    alloc: A,
    contexts: &mut Contexts<'_, A>,
    letters: &[Value],
    extent: WordExtent,
    work: &mut Work,
) -> Result<Learned<A>, Halt> {
    let mut learned = Learned {
        words: Vec::from_slice(alloc, &[ONE])?,
        values: Vec::from_slice(alloc, &[Value::ONE])?,
        rules: Vec::new(alloc),
        tree: Tree::new(alloc)?,
    };
    let mut from = 0usize;
    for _ in 0..extent.length {
        let to = learned.words.len();
        for item in from..to {
            learned.lengthen(contexts, letters, extent.window, item, work)?;
        }
        from = to;
        if learned.words.len() == to {
            break;
        }
    }
    Ok(learned)
}
