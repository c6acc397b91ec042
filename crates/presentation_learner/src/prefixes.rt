//! Contexts generator by generator, so that what they have in common is brought to its normal form once.
use crate::forms::Forms;
use crate::heap_words::{GENERATORS, HeapWord, ONE, exponent, lengthened};
use crate::table::WordTable;
use quotient_search::{Halt, Work};
use running_pairs::{NONE, at, put};
use std::alloc::Allocator;

/// The beginnings of contexts: of each the beginning without its last generator, and this generator. The empty one has
/// the number 0.
#[derive(Drop)]
pub struct Prefixes<A: Allocator> {
    alloc: A,
    before: Vec<usize, A>,
    generators: Vec<usize, A>,
    /// The number of each context.
    numbers: Vec<usize, A>,
}

/// The forms of one word beside beginnings of contexts, `NONE` where they aren't known.
#[derive(Drop)]
pub struct Row<A: Allocator> {
    forms: Vec<usize, A>,
    way: Vec<usize, A>,
}

impl<A: Allocator + Copy> Prefixes<A> {
    /// The beginnings of some contexts.
    pub fn of(alloc: A, contexts: &WordTable<A>) -> Result<Prefixes<A>, Halt> {
        let mut prefixes = Prefixes {
            alloc,
            before: Vec::from_slice(alloc, &[NONE])?,
            generators: Vec::from_slice(alloc, &[0usize])?,
            numbers: Vec::new(alloc),
        };
        let mut table = WordTable::new(alloc)?;
        table.add(&ONE)?;
        for context in contexts.words.iter() {
            prefixes.add(&mut table, context)?;
        }
        Ok(prefixes)
    }

    /// Takes up a context with its beginnings.
    fn add(&mut self, table: &mut WordTable<A>, context: &HeapWord) -> Result<(), Halt> {
        let mut word = ONE;
        let mut last = 0usize;
        for generator in 0..GENERATORS {
            for _ in 0..exponent(context, generator) {
                word = lengthened(&word, generator);
                let number = table.add(&word)?;
                if number >= self.before.len() {
                    self.before.push(last)?;
                    self.generators.push(generator)?;
                }
                last = number;
            }
        }
        self.numbers.push(last).map_err(Halt::from)
    }

    /// The row of a form.
    pub fn row(&self, form: usize) -> Result<Row<A>, Halt> {
        let mut row = Row {
            forms: vec![in self.alloc; NONE; self.before.len()]?,
            way: Vec::new(self.alloc),
        };
        put(&mut row.forms, 0, form);
        Ok(row)
    }
}

impl<A: Allocator> Row<A> {
    /// Begins anew with another form.
    pub fn begin(&mut self, form: usize) {
        for place in 0..self.forms.len() {
            put(&mut self.forms, place, NONE);
        }
        put(&mut self.forms, 0, form);
    }
}

impl<A: Allocator + Copy> Row<A> {
    /// The form of the row's word beside a context.
    pub fn beside(
        &mut self,
        forms: &mut Forms<'_, A>,
        prefixes: &Prefixes<A>,
        context: usize,
        work: &mut Work,
    ) -> Result<usize, Halt> {
        let mut number = at(&prefixes.numbers, context);
        self.way.truncate(0);
        for _ in 0..self.forms.len() {
            if at(&self.forms, number) != NONE {
                break;
            }
            self.way.push(number)?;
            number = at(&prefixes.before, number);
        }
        let mut form = at(&self.forms, number);
        work.spend(self.way.len().saturating_mul(15).saturating_add(10))?;
        for _ in 0..self.forms.len() {
            let Some(next) = self.way.pop() else {
                break;
            };
            form = forms.step(form, at(&prefixes.generators, next), work)?;
            put(&mut self.forms, next, form);
        }
        Ok(form)
    }
}
