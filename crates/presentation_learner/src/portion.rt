//! The portion up to where outcomes surely repeat along each letter.
use crate::forms::Forms;
use crate::{ONE, exponent, is_reducible_at, last_letter, lengthened};
use normal_forms::{Exponents, Rule};
use presented_text::LetterCycle;
use quotient_search::{Halt, Work};
use running_pairs::at;
use std::alloc::Allocator;

/// The most standard words that are looked at.
const MOST_WORDS: usize = 400_000;

/// How much further than relations go it is looked where outcomes begin to repeat, and after how many they do.
const FARTHER: u16 = 8;

const PERIOD: u16 = 12;

/// Cycles that surely have all letters' least ones in them.
pub fn long_cycles<A: Allocator + Copy>(
    alloc: A,
    rules: &[Rule],
    letters: usize,
) -> Result<Vec<LetterCycle, A>, Halt> {
    let mut cycles: Vec<LetterCycle, A> = Vec::new(alloc);
    for letter in 0..letters {
        cycles.push(LetterCycle {
            start: largest_of(rules, letter).saturating_add(FARTHER),
            period: PERIOD,
        })?;
    }
    Ok(cycles)
}

/// The largest exponent of a letter in left words.
fn largest_of(rules: &[Rule], letter: usize) -> u16 {
    let mut most = 0u16;
    for rule in rules.iter() {
        most = most.max(exponent(&rule.left, letter));
    }
    most
}

/// What words are made of: the letters' generators and cycles, and the relations. And standard words, with their forms.
#[derive(Drop)]
pub struct Listing<'a, A: Allocator> {
    pub letters: &'a [usize],
    pub cycles: &'a [LetterCycle],
    pub rules: &'a [Rule],
    pub words: Vec<Exponents, A>,
    pub forms: Vec<usize, A>,
}

impl<A: Allocator + Copy> Listing<'_, A> {
    /// Whether a word has fewer of a letter than where its first period ends.
    fn is_below(&self, word: &Exponents, letter: usize) -> bool {
        match self.cycles.get(letter) {
            Some(cycle) => exponent(word, letter) < cycle.start.saturating_add(cycle.period),
            None => false,
        }
    }

    /// Lists what a standard word and a letter more are.
    fn lengthen(
        &mut self,
        forms: &mut Forms<'_, A>,
        item: usize,
        work: &mut Work,
    ) -> Result<(), Halt> {
        let word = self.words.get(item).copied().unwrap_or(ONE);
        for letter in last_letter(&word)..self.letters.len() {
            work.spend(self.rules.len().saturating_mul(4).saturating_add(100))?;
            let longer = lengthened(&word, letter);
            if self.is_below(&longer, letter) && !is_reducible_at(self.rules, &longer, letter) {
                let form = forms.step(at(&self.forms, item), at(self.letters, letter), work)?;
                self.words.push(longer)?;
                self.forms.push(form)?;
            }
        }
        Ok(())
    }

    /// The standard words that are P, of fewer letters than where the first periods end, in their order.
    pub fn portion(
        &mut self,
        alloc: A,
        forms: &mut Forms<'_, A>,
        work: &mut Work,
    ) -> Result<Vec<Exponents, A>, Halt> {
        let mut portion: Vec<Exponents, A> = Vec::new(alloc);
        for item in 0..MOST_WORDS {
            let Some(word) = self.words.get(item).copied() else {
                return Ok(portion);
            };
            if forms.is_p(at(&self.forms, item), work)? {
                portion.push(word)?;
            }
            self.lengthen(forms, item, work)?;
        }
        Err(Halt::TooLarge)
    }
}
