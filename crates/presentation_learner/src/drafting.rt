//! The text of a presentation.
use crate::words::{exponent, last_letter};
use normal_forms::{Exponents, Rule};
use octal_code::Code;
use presentations::LETTERS;
use presented_text::LetterCycle;
use quotient_search::Halt;
use std::alloc::Allocator;

/// What a text says: the code; the period, or 0 if there is none; the letters' heaps, the heaps' words, relations by
/// the order of their left words, cycles and portion.
#[derive(Drop)]
pub struct FoundLines<A: Allocator> {
    pub code: Code,
    pub period: u64,
    pub letters: Vec<usize, A>,
    pub words: Vec<Option<Exponents>, A>,
    pub rules: Vec<Rule, A>,
    pub cycles: Vec<LetterCycle, A>,
    pub portion: Vec<Exponents, A>,
}

/// A text on the way.
#[derive(Drop)]
struct Draft<A: Allocator> {
    alloc: A,
    text: Vec<u8, A>,
}

impl<A: Allocator + Copy> Draft<A> {
    fn add(&mut self, words: &str) -> Result<(), Halt> {
        self.text
            .extend_from_slice(words.as_bytes())
            .map_err(Halt::from)
    }

    fn add_number(&mut self, before: &str, number: usize) -> Result<(), Halt> {
        let word = format!(in self.alloc; "{before}{number}")?;
        self.add(word.as_str())
    }

    /// A letter with its exponent.
    fn add_factor(&mut self, letter: u8, count: u16) -> Result<(), Halt> {
        self.text.push(b'a'.saturating_add(letter))?;
        if count > 1 {
            self.add_number("^", count as usize)?;
        }
        Ok(())
    }

    /// A word behind a space.
    fn add_word(&mut self, word: &Exponents) -> Result<(), Halt> {
        self.add(" ")?;
        let from = self.text.len();
        for letter in 0..LETTERS as u8 {
            let count = exponent(word, letter as usize);
            if count > 0 {
                self.add_factor(letter, count)?;
            }
        }
        if self.text.len() == from {
            self.add("1")?;
        }
        Ok(())
    }

    /// The lines up to the words of the heaps.
    fn add_head(&mut self, found: &FoundLines<A>) -> Result<(), Halt> {
        let code = found.code.text(self.alloc)?;
        self.add("mqp 1\ncode ")?;
        self.add(code.as_str())?;
        self.add_number("\nheaps ", found.words.len())?;
        if found.period > 0 {
            self.add_number(" period ", found.period as usize)?;
        }
        self.add("\nletters")?;
        for heap in found.letters.iter() {
            self.add_number(" ", *heap)?;
        }
        self.add("\nwords")?;
        for word in found.words.iter() {
            match word {
                Some(word) => self.add_word(word)?,
                None => self.add(" -")?,
            }
        }
        self.add("\n")
    }

    /// The relations whose left words have this last letter.
    fn add_relations(&mut self, rules: &[Rule], letter: usize) -> Result<(), Halt> {
        for rule in rules.iter() {
            if last_letter(&rule.left) == letter {
                self.add("relation")?;
                self.add_word(&rule.left)?;
                self.add_word(&rule.right)?;
                self.add("\n")?;
            }
        }
        Ok(())
    }

    /// The lines behind the relations.
    fn add_portion(&mut self, found: &FoundLines<A>) -> Result<(), Halt> {
        self.add("cycle")?;
        for cycle in found.cycles.iter() {
            self.add_number(" ", cycle.start as usize)?;
            self.add_number(":", cycle.period as usize)?;
        }
        self.add("\nportion")?;
        for word in found.portion.iter() {
            self.add_word(word)?;
        }
        self.add("\nend\n")
    }
}

/// The text of what was found.
pub fn drafted<A: Allocator + Copy>(alloc: A, found: &FoundLines<A>) -> Result<Vec<u8, A>, Halt> {
    let mut draft = Draft {
        alloc,
        text: Vec::new(alloc),
    };
    draft.add_head(found)?;
    for letter in 0..found.letters.len() {
        draft.add_relations(&found.rules, letter)?;
    }
    draft.add_portion(found)?;
    let Draft { text, .. } = draft;
    Ok(text)
}
