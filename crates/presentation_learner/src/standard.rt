//! Standard words and new rules, word by word, by their order.
use crate::forms::Forms;
use crate::heap_words::{
    HeapRule, HeapWord, ONE, exponent, is_reducible_at, last_generator, lengthened,
};
use crate::prefixes::{Prefixes, Row};
use crate::table::WordTable;
use quotient_search::{Halt, Work};
use running_pairs::{NONE, at, byte, greatest, put, put_byte};
use std::alloc::Allocator;

/// The most standard words.
const MOST_WORDS: usize = 20_000;

/// The most bytes of what is seen of standard words.
const MOST_SEEN: usize = 1 << 28;

/// An outcome that isn't known.
const UNKNOWN: u8 = 2;

/// Standard words by their order, what is seen of them beside contexts, a tree of contexts at whose ends they are, and
/// new rules. A node of the tree has a context and two nodes below it; or it has none, and the number of a word.
#[derive(Drop)]
pub struct Standard<'a, A: Allocator> {
    contexts: &'a WordTable<A>,
    prefixes: Prefixes<A>,
    /// The rows of the last word, and of another one, with this one's number.
    row: Row<A>,
    other_row: Row<A>,
    other: usize,
    pub words: Vec<HeapWord, A>,
    pub forms: Vec<usize, A>,
    /// For each word and context whether both together are P.
    seen: Vec<u8, A>,
    nodes: Vec<usize, A>,
    below: Vec<usize, A>,
    /// Where the words of each weight begin.
    starts: Vec<usize, A>,
    pub rules: Vec<HeapRule, A>,
    /// For each generator whether a standard word has as many of it as are looked at.
    pub runs: Vec<u8, A>,
}

impl<'a, A: Allocator + Copy> Standard<'a, A> {
    /// The word of nothing alone.
    fn of_nothing(
        alloc: A,
        contexts: &'a WordTable<A>,
        count: usize,
    ) -> Result<Standard<'a, A>, Halt> {
        let prefixes = Prefixes::of(alloc, contexts)?;
        Ok(Standard {
            contexts,
            row: prefixes.row(0)?,
            other_row: prefixes.row(0)?,
            other: 0,
            prefixes,
            words: Vec::from_slice(alloc, &[ONE])?,
            forms: Vec::from_slice(alloc, &[0usize])?,
            seen: vec![in alloc; UNKNOWN; contexts.words.len()]?,
            nodes: Vec::from_slice(alloc, &[NONE])?,
            below: Vec::from_slice(alloc, &[0usize])?,
            starts: Vec::from_slice(alloc, &[0usize])?,
            rules: Vec::new(alloc),
            runs: vec![in alloc; 0u8; count]?,
        })
    }
}

impl<A: Allocator + Copy> Standard<'_, A> {
    /// The form of a word beside a context.
    fn both(
        &mut self,
        forms: &mut Forms<'_, A>,
        item: usize,
        context: usize,
        work: &mut Work,
    ) -> Result<usize, Halt> {
        if item.saturating_add(1) == self.words.len() {
            return self.row.beside(forms, &self.prefixes, context, work);
        }
        if item != self.other {
            self.other = item;
            self.other_row.begin(at(&self.forms, item));
        }
        self.other_row.beside(forms, &self.prefixes, context, work)
    }

    /// Whether a word is P beside a context: 1 or 0.
    fn bit(
        &mut self,
        forms: &mut Forms<'_, A>,
        item: usize,
        context: usize,
        work: &mut Work,
    ) -> Result<u8, Halt> {
        let place = item
            .wrapping_mul(self.contexts.words.len())
            .wrapping_add(context);
        let known = byte(&self.seen, place);
        if known != UNKNOWN {
            return Ok(known);
        }
        let both = self.both(forms, item, context, work)?;
        let bit = u8::from(forms.is_p(both, work)?);
        put_byte(&mut self.seen, place, bit);
        Ok(bit)
    }

    /// The end of the tree to which a word comes.
    fn end_of(
        &mut self,
        forms: &mut Forms<'_, A>,
        item: usize,
        work: &mut Work,
    ) -> Result<usize, Halt> {
        let mut node = 0usize;
        for _ in 0..self.nodes.len() {
            work.spend(10)?;
            let context = at(&self.nodes, node);
            if context == NONE {
                break;
            }
            let bit = self.bit(forms, item, context, work)?;
            node = at(&self.below, node).wrapping_add(bit as usize);
        }
        Ok(node)
    }

    /// The first context that tells two words apart, if there is one.
    fn telling(
        &mut self,
        forms: &mut Forms<'_, A>,
        item: usize,
        other: usize,
        work: &mut Work,
    ) -> Result<Option<usize>, Halt> {
        work.spend(self.contexts.words.len().saturating_mul(10))?;
        for context in 0..self.contexts.words.len() {
            if self.bit(forms, item, context, work)? != self.bit(forms, other, context, work)? {
                return Ok(Some(context));
            }
        }
        Ok(None)
    }

    /// Puts in a word that no rule makes smaller: as a standard one, or as the left word of a rule.
    fn put(
        &mut self,
        forms: &mut Forms<'_, A>,
        word: &HeapWord,
        work: &mut Work,
    ) -> Result<(), Halt> {
        let item = self.words.len();
        let form = forms.form_of(word, work)?;
        self.words.push(*word)?;
        self.forms.push(form)?;
        self.row.begin(form);
        let before = self.seen.len();
        let room = before.saturating_add(self.contexts.words.len());
        if item >= MOST_WORDS || room > MOST_SEEN {
            return Err(Halt::TooLarge);
        }
        self.seen.resize(room, UNKNOWN)?;
        let node = self.end_of(forms, item, work)?;
        let other = at(&self.below, node);
        if let Some(context) = self.telling(forms, item, other, work)? {
            let bit = self.bit(forms, item, context, work)?;
            return self.grow(node, context, item, bit);
        }
        self.words.pop();
        self.forms.pop();
        self.seen.truncate(before);
        let right = self.words.get(other).copied().unwrap_or(ONE);
        self.rules
            .push(HeapRule { left: *word, right })
            .map_err(Halt::from)
    }

    /// Puts a word and that of an end of the tree below a node with a context.
    fn grow(&mut self, node: usize, context: usize, item: usize, bit: u8) -> Result<(), Halt> {
        let other = at(&self.below, node);
        let (low, high) = if bit == 1 {
            (other, item)
        } else {
            (item, other)
        };
        let first = self.nodes.len();
        self.nodes.push(NONE)?;
        self.nodes.push(NONE)?;
        self.below.push(low)?;
        self.below.push(high)?;
        put(&mut self.nodes, node, context);
        put(&mut self.below, node, first);
        Ok(())
    }

    /// Whether the left word of some rule is in a word that has none but for the last of a letter.
    fn is_reducible(&self, forms: &Forms<'_, A>, word: &HeapWord, letter: usize) -> bool {
        is_reducible_at(forms.rules, word, letter) || is_reducible_at(&self.rules, word, letter)
    }

    /// Takes up a standard word and a letter more.
    fn lengthen(
        &mut self,
        forms: &mut Forms<'_, A>,
        item: usize,
        letter: usize,
        most: u8,
        work: &mut Work,
    ) -> Result<(), Halt> {
        let word = self.words.get(item).copied().unwrap_or(ONE);
        if last_generator(&word) > letter {
            return Ok(());
        }
        let longer = lengthened(&word, letter);
        if exponent(&longer, letter) > most {
            put_byte(&mut self.runs, letter, 1);
            return Ok(());
        }
        work.spend(forms.rules.len().saturating_mul(4).saturating_add(100))?;
        if self.is_reducible(forms, &longer, letter) {
            return Ok(());
        }
        self.put(forms, &longer, work)
    }

    /// Takes up the words of a weight whose last letter is this one.
    fn lengthen_by(
        &mut self,
        forms: &mut Forms<'_, A>,
        weight: usize,
        letter: usize,
        most: u8,
        work: &mut Work,
    ) -> Result<(), Halt> {
        let each = at(&forms.part.weights, letter);
        if each > weight {
            return Ok(());
        }
        let lighter = weight.wrapping_sub(each);
        let (from, to) = (
            at(&self.starts, lighter),
            at(&self.starts, lighter.saturating_add(1)),
        );
        for item in from..to {
            self.lengthen(forms, item, letter, most, work)?;
        }
        Ok(())
    }

    /// Takes up the words of a weight.
    fn take_weight(
        &mut self,
        forms: &mut Forms<'_, A>,
        weight: usize,
        most: u8,
        work: &mut Work,
    ) -> Result<(), Halt> {
        self.starts.push(self.words.len())?;
        for letter in 0..forms.count {
            self.lengthen_by(forms, weight, letter, most, work)?;
        }
        Ok(())
    }

    /// Whether no word has one of the last weights.
    fn is_over(&self, greatest: usize) -> bool {
        let weights = self.starts.len();
        weights > greatest && at(&self.starts, weights.wrapping_sub(greatest)) == self.words.len()
    }

    /// The contexts of the tree.
    pub fn contexts_used(&self, alloc: A) -> Result<WordTable<A>, Halt> {
        let mut used = WordTable::new(alloc)?;
        for context in self.nodes.iter() {
            if *context != NONE {
                used.add(&self.contexts.word(*context))?;
            }
        }
        Ok(used)
    }
}

/// The standard words with at most so many of each letter, beside contexts, and the rules that are new.
pub fn standard_words<'a, A: Allocator + Copy>(
    alloc: A,
    forms: &mut Forms<'_, A>,
    contexts: &'a WordTable<A>,
    most: u8,
    work: &mut Work,
) -> Result<Standard<'a, A>, Halt> {
    let mut standard = Standard::of_nothing(alloc, contexts, forms.count)?;
    let greatest = greatest(&forms.part.weights).saturating_add(1);
    for weight in 1..u32::MAX as usize {
        work.spend(1000)?;
        standard.take_weight(forms, weight, most, work)?;
        if standard.is_over(greatest) {
            return Ok(standard);
        }
    }
    Err(Halt::Work)
}
