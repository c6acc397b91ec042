//! The elements of a presentation in numbers. Nothing is promised of them but that the calls end.
use allocation::Memory;
use normal_forms::{Exponents, is_word, with_letter};
use presentations::LETTERS;
use presented_tables::Presented;
use std::alloc::Global;

/// Standard words, the first of which is that of nothing.
#[derive(Drop)]
pub(crate) struct Elements {
    pub words: Vec<Exponents>,
    /// Of each word an earlier one and a letter, whose product it is.
    pub made: Vec<(usize, usize)>,
    /// For each word a row, which has the number of its product with each letter.
    pub steps: Vec<usize>,
    pub letters: usize,
}

impl Elements {
    /// The word of nothing alone.
    fn of_nothing(alloc: Global, letters: usize) -> Result<Elements, Memory> {
        let mut words = Vec::new(alloc);
        words.push([0u16; LETTERS])?;
        let mut made = Vec::new(alloc);
        made.push((0usize, 0usize))?;
        Ok(Elements {
            words,
            made,
            steps: Vec::new(alloc),
            letters,
        })
    }

    /// The number of a word, if it has one.
    pub(crate) fn place(&self, word: &Exponents) -> Option<usize> {
        for x in 0..self.words.len() {
            let other = &self.words[x];
            if is_word(word, other) {
                return Some(x);
            }
        }
        None
    }

    /// The number of the product of element `x` and letter `i`, or none if there is no room for it.
    fn stepped(&mut self, said: &Presented, x: usize, i: usize) -> Result<Option<usize>, Memory> {
        let Some(word) = self.words.get(x).copied() else {
            return Ok(None);
        };
        let Some(more) = with_letter(&word, i) else {
            return Ok(None);
        };
        let Some(form) = said.basis.normal_form(&more) else {
            return Ok(None);
        };
        if let Some(y) = self.place(&form) {
            return Ok(Some(y));
        }
        self.words.push(form)?;
        self.made.push((x, i))?;
        Ok(Some(self.words.len().saturating_sub(1)))
    }

    /// Adds the row of element `x`; whether there is room for it.
    fn add_row(&mut self, said: &Presented, x: usize) -> Result<bool, Memory> {
        for i in 0..self.letters {
            match self.stepped(said, x, i)? {
                Some(y) => self.steps.push(y)?,
                None => return Ok(false),
            }
        }
        Ok(true)
    }

    /// The number of the product of element `x` and letter `i`.
    fn step(&self, x: usize, i: usize) -> usize {
        let row = x.saturating_mul(self.letters);
        self.steps.get(row.saturating_add(i)).copied().unwrap_or(0)
    }

    /// Adds the products of element `x` and all.
    fn add_products(&self, products: &mut Vec<u16>, x: usize) -> Result<(), Memory> {
        let row = products.len();
        for y in 0..self.made.len() {
            let (before, letter) = self.made[y];
            let product = if y == 0 {
                x
            } else {
                let place = row.saturating_add(before);
                let earlier = products.get(place).copied().unwrap_or(0);
                self.step(earlier as usize, letter)
            };
            products.push(product.min(u16::MAX as usize) as u16)?;
        }
        Ok(())
    }

    /// All products, row by row.
    pub(crate) fn products(&self, alloc: Global) -> Result<Vec<u16>, Memory> {
        let mut products = Vec::new(alloc);
        for x in 0..self.words.len() {
            self.add_products(&mut products, x)?;
        }
        Ok(products)
    }
}

/// The elements, if there are so many.
pub(crate) fn elements_of(
    alloc: Global,
    said: &Presented,
    order: usize,
) -> Result<Option<Elements>, Memory> {
    let mut elements = Elements::of_nothing(alloc, said.letters.len())?;
    for x in 0..order {
        if elements.words.len() > order || !elements.add_row(said, x)? {
            return Ok(None);
        }
    }
    if elements.words.len() == order {
        Ok(Some(elements))
    } else {
        Ok(None)
    }
}
