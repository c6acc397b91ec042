//! Guessed elements, numbered by least keys.
use crate::guess::Guess;
use allocation::Memory;
use misere_theory::LARGEST_ORDER;
use std::alloc::Global;

/// The number of an element that has none yet.
const UNNUMBERED: u16 = u16::MAX;

/// How an element is made: a smaller one, times a heap's.
#[derive(Clone, Copy)]
pub(crate) struct Key {
    pub element: usize,
    pub heap: usize,
}

/// The elements that products of heaps reach, in the order of their least keys.
#[derive(Drop)]
pub(crate) struct Numbering {
    /// The guessed element of each number.
    pub elements: Vec<u16>,
    /// The keys of the elements from 1 on.
    pub keys: Vec<Key>,
    numbers: Vec<u16>,
}

/// The product of two guessed elements, if the guess has it.
fn product(guess: &Guess, x: u16, y: u16) -> Option<u16> {
    let row = (x as usize).checked_mul(guess.order)?;
    let at = row.checked_add(y as usize)?;
    guess.products.get(at).copied()
}

impl Numbering {
    /// Nothing is numbered yet.
    pub fn empty(alloc: Global) -> Numbering {
        Numbering {
            elements: Vec::new(alloc),
            keys: Vec::new(alloc),
            numbers: Vec::new(alloc),
        }
    }

    /// Numbers the elements that products of these heaps' elements reach. Answers whether there are
    /// no more than `most` of them, and at least two.
    pub fn fill(&mut self, guess: &Guess, heaps: &[u16], most: usize) -> Result<bool, Memory> {
        if guess.order >= UNNUMBERED as usize {
            return Ok(false);
        }
        self.numbers.resize(guess.order, UNNUMBERED)?;
        let most = most.min(LARGEST_ORDER as usize);
        if !self.add(0)? || !self.multiply_all(guess, heaps, most)? {
            return Ok(false);
        }
        let order = self.elements.len();
        Ok(order >= 2 && order <= most)
    }

    /// Gives the element the next number, and answers whether it could.
    fn add(&mut self, element: u16) -> Result<bool, Memory> {
        let next = self.elements.len();
        let at = element as usize;
        if next > LARGEST_ORDER as usize || at >= self.numbers.len() {
            return Ok(false);
        }
        self.elements.push(element)?;
        self.numbers[at] = next as u16;
        Ok(true)
    }

    /// Gives an element made so the next number, unless it has one. Answers whether it has one
    /// then.
    fn reach(&mut self, element: u16, key: Key) -> Result<bool, Memory> {
        if self.number(element).is_some() {
            return Ok(true);
        }
        if !self.add(element)? {
            return Ok(false);
        }
        self.keys.push(key)?;
        Ok(true)
    }

    /// Numbers the products of an element with the heaps, and answers whether it could.
    fn multiply(
        &mut self,
        guess: &Guess,
        heaps: &[u16],
        at: usize,
        element: u16,
    ) -> Result<bool, Memory> {
        for (place, heap) in heaps.iter().enumerate() {
            let Some(next) = product(guess, element, *heap) else {
                return Ok(false);
            };
            let key = Key {
                element: at,
                heap: place + 1,
            };
            if !self.reach(next, key)? {
                return Ok(false);
            }
        }
        Ok(true)
    }

    /// Numbers the products of the first elements with the heaps, and answers whether it could.
    fn multiply_all(&mut self, guess: &Guess, heaps: &[u16], most: usize) -> Result<bool, Memory> {
        for at in 0..most {
            let Some(element) = self.elements.get(at).copied() else {
                break;
            };
            if !self.multiply(guess, heaps, at, element)? {
                return Ok(false);
            }
        }
        Ok(true)
    }

    /// How many elements, from 1 on, have a key with the element 0.
    pub fn firsts(&self) -> usize {
        self.keys.iter().take_while(|key| key.element == 0).count()
    }

    /// The number of a guessed element, if it has one.
    pub fn number(&self, element: u16) -> Option<u16> {
        match self.numbers.get(element as usize).copied() {
            Some(UNNUMBERED) | None => None,
            found => found,
        }
    }

    /// The number of a product of two guessed elements.
    pub fn product(&self, guess: &Guess, x: u16, y: u16) -> Option<u16> {
        self.number(product(guess, x, y)?)
    }
}
