//! From rules of generators to letters and relations by the order of words.
use crate::forms::Forms;
use crate::{ONE, is_reducible_at, last_letter, lengthened};
use normal_forms::{Exponents, Rule};
use presentations::LETTERS;
use quotient_search::{Halt, Work};
use running_pairs::{NONE, put};
use std::alloc::Allocator;

/// The most standard words.
const MOST_WORDS: usize = 60_000;

/// How much longer words are looked at than the longest left word.
const FARTHER: usize = 10;

/// Standard words of letters by their order, their normal forms, and the relations by the order of their left words.
#[derive(Drop)]
pub struct Lettered<A: Allocator> {
    pub words: Vec<Exponents, A>,
    pub forms: Vec<usize, A>,
    /// Of each form the number of its word, or `NONE`.
    numbers: Vec<usize, A>,
    pub rules: Vec<Rule, A>,
}

impl<A: Allocator + Copy> Lettered<A> {
    /// The word of nothing alone.
    fn of_nothing(alloc: A) -> Result<Lettered<A>, Halt> {
        Ok(Lettered {
            words: Vec::from_slice(alloc, &[ONE])?,
            forms: Vec::from_slice(alloc, &[0usize])?,
            numbers: Vec::from_slice(alloc, &[0usize])?,
            rules: Vec::new(alloc),
        })
    }
}

impl<A: Allocator> Lettered<A> {
    /// The number of the word of a form, or `NONE`.
    fn number_of(&self, form: usize) -> usize {
        match self.numbers.get(form) {
            Some(number) => *number,
            None => NONE,
        }
    }

    /// The standard word of a form, if it is there.
    pub fn word_of(&self, form: usize) -> Option<Exponents> {
        self.words.get(self.number_of(form)).copied()
    }

    /// Puts in a word of a form, as a standard one or as the left word of a relation.
    fn put(&mut self, word: &Exponents, form: usize) -> Result<(), Halt> {
        if let Some(right) = self.word_of(form) {
            return self
                .rules
                .push(Rule { left: *word, right })
                .map_err(Halt::from);
        }
        if self.words.len() >= MOST_WORDS {
            return Err(Halt::TooLarge);
        }
        if form >= self.numbers.len() {
            self.numbers.resize(form.saturating_add(1), NONE)?;
        }
        put(&mut self.numbers, form, self.words.len());
        self.words.push(*word)?;
        self.forms.push(form).map_err(Halt::from)
    }
}

impl<A: Allocator + Copy> Lettered<A> {
    /// Takes up a standard word and a letter more, for each letter from its last one on.
    fn lengthen(
        &mut self,
        forms: &mut Forms<'_, A>,
        letters: &[usize],
        item: usize,
        work: &mut Work,
    ) -> Result<(), Halt> {
        let word = self.words.get(item).copied().unwrap_or(ONE);
        let form = self.forms.get(item).copied().unwrap_or(0);
        for (letter, generator) in letters.iter().enumerate() {
            if letter < last_letter(&word) {
                continue;
            }
            work.spend(self.rules.len().saturating_mul(4).saturating_add(100))?;
            let longer = lengthened(&word, letter);
            if !is_reducible_at(&self.rules, &longer, letter) {
                let to = forms.step(form, *generator, work)?;
                self.put(&longer, to)?;
            }
        }
        Ok(())
    }
}

/// Words of some generators, which are the letters, as far as relations go on to be found.
pub fn learned_words<A: Allocator + Copy>(
    alloc: A,
    forms: &mut Forms<'_, A>,
    letters: &[usize],
    work: &mut Work,
) -> Result<Lettered<A>, Halt> {
    let mut found = Lettered::of_nothing(alloc)?;
    let mut from = 0usize;
    let mut last = 0usize;
    for length in 0..MOST_WORDS {
        let (to, known) = (found.words.len(), found.rules.len());
        for item in from..to {
            found.lengthen(forms, letters, item, work)?;
        }
        from = to;
        if found.rules.len() > known {
            last = length;
        }
        if found.words.len() == to || length > last.saturating_add(FARTHER) {
            break;
        }
    }
    Ok(found)
}

/// The generators that are no products of smaller letters.
fn new_letters<A: Allocator + Copy>(
    alloc: A,
    forms: &mut Forms<'_, A>,
    work: &mut Work,
) -> Result<Vec<usize, A>, Halt> {
    let mut letters: Vec<usize, A> = Vec::new(alloc);
    let mut products = learned_words(alloc, forms, &letters, work)?;
    for generator in 0..forms.count {
        let form = forms.step(0, generator, work)?;
        if products.word_of(form).is_none() && letters.len() < LETTERS {
            letters.push(generator)?;
            products = learned_words(alloc, forms, &letters, work)?;
        }
    }
    Ok(letters)
}

/// The letters without one of them.
fn without<A: Allocator + Copy>(
    alloc: A,
    letters: &[usize],
    left_out: usize,
) -> Result<Vec<usize, A>, Halt> {
    let mut others: Vec<usize, A> = Vec::new(alloc);
    for generator in letters.iter() {
        if *generator != left_out {
            others.push(*generator)?;
        }
    }
    Ok(others)
}

/// The generators that are letters: those that are no products of smaller ones, and of these, from the last one on,
/// those that the others don't make.
pub fn letters_of<A: Allocator + Copy>(
    alloc: A,
    forms: &mut Forms<'_, A>,
    work: &mut Work,
) -> Result<Vec<usize, A>, Halt> {
    let mut letters = new_letters(alloc, forms, work)?;
    for generator in (0..forms.count).rev() {
        if !letters.contains(&generator) {
            continue;
        }
        let others = without(alloc, &letters, generator)?;
        let products = learned_words(alloc, forms, &others, work)?;
        let form = forms.step(0, generator, work)?;
        if products.word_of(form).is_some() {
            letters = others;
        }
    }
    Ok(letters)
}
