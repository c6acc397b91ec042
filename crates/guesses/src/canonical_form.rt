//! A guess in the numbers of a certificate.
use crate::guess::Guess;
use crate::numbering::Numbering;
use allocation::Memory;
use std::alloc::Global;

/// The numbers of a certificate: elements by least keys, and least separating elements.
#[derive(Drop)]
pub(crate) struct CanonicalForm {
    pub numbering: Numbering,
    /// The numbers of the heaps' elements.
    pub phi: Vec<u16>,
    /// The rows of the table, one behind the other.
    pub rows: Vec<u16>,
    /// The numbers of the elements in the portion, rising.
    pub portion: Vec<u16>,
    /// For each two elements the least one that separates them.
    pub apart: Vec<u16>,
}

/// The marks of the elements in the portion.
fn marks(alloc: Global, portion: &[u16], order: usize) -> Result<Vec<bool>, Memory> {
    let mut in_portion = vec![in alloc; false; order]?;
    for x in portion {
        if let Some(is_marked) = in_portion.get_mut(*x as usize) {
            *is_marked = true;
        }
    }
    Ok(in_portion)
}

/// For each entry of the rows whether it is marked.
fn signs(alloc: Global, rows: &[u16], in_portion: &[bool]) -> Result<Vec<bool>, Memory> {
    let mut signs = Vec::new(alloc);
    for x in rows {
        signs.push(in_portion.get(*x as usize).copied() == Some(true))?;
    }
    Ok(signs)
}

/// The row of an element.
fn row(signs: &[bool], order: usize, x: usize) -> &[bool] {
    let from = x.saturating_mul(order);
    signs.get(from..from.saturating_add(order)).unwrap_or(&[])
}

/// The first place at which the rows differ.
fn separating(x: &[bool], y: &[bool]) -> Option<u16> {
    let place = x.iter().zip(y).position(|(a, b)| *a != *b)?;
    u16::try_from(place).ok()
}

/// Adds the rows of the table. Answers whether the guess has all products.
fn push_rows(guess: &Guess, numbering: &Numbering, rows: &mut Vec<u16>) -> Result<bool, Memory> {
    for x in &numbering.elements {
        if !push_row(guess, numbering, *x, rows)? {
            return Ok(false);
        }
    }
    Ok(true)
}

/// Adds the row of an element. Answers whether the guess has its products.
fn push_row(
    guess: &Guess,
    numbering: &Numbering,
    x: u16,
    rows: &mut Vec<u16>,
) -> Result<bool, Memory> {
    for y in &numbering.elements {
        let Some(number) = numbering.product(guess, x, *y) else {
            return Ok(false);
        };
        rows.push(number)?;
    }
    Ok(true)
}

/// Adds the numbers of the elements in the portion.
fn push_portion(
    guess: &Guess,
    numbering: &Numbering,
    portion: &mut Vec<u16>,
) -> Result<(), Memory> {
    for element in &numbering.elements {
        if guess.in_portion.get(*element as usize).copied() == Some(true) {
            if let Some(number) = numbering.number(*element) {
                portion.push(number)?;
            }
        }
    }
    Ok(())
}

impl CanonicalForm {
    /// Nothing is filled in yet.
    pub fn empty(alloc: Global) -> CanonicalForm {
        CanonicalForm {
            numbering: Numbering::empty(alloc),
            phi: Vec::new(alloc),
            rows: Vec::new(alloc),
            portion: Vec::new(alloc),
            apart: Vec::new(alloc),
        }
    }

    /// Fills in a guess of these heaps. Answers whether it could: whether the guess has its
    /// products, no more than `most` elements are reached and at least two, one of them is in the
    /// portion, and an element separates each two.
    pub fn fill(
        &mut self,
        alloc: Global,
        guess: &Guess,
        heaps: &[u16],
        most: usize,
    ) -> Result<bool, Memory> {
        if !self.numbering.fill(guess, heaps, most)?
            || !self.fill_phi(heaps)?
            || !push_rows(guess, &self.numbering, &mut self.rows)?
        {
            return Ok(false);
        }
        push_portion(guess, &self.numbering, &mut self.portion)?;
        Ok(self.fill_apart(alloc)? && !self.portion.is_empty())
    }

    fn fill_phi(&mut self, heaps: &[u16]) -> Result<bool, Memory> {
        for heap in heaps {
            let Some(number) = self.numbering.number(*heap) else {
                return Ok(false);
            };
            self.phi.push(number)?;
        }
        Ok(true)
    }

    fn fill_apart(&mut self, alloc: Global) -> Result<bool, Memory> {
        let order = self.numbering.elements.len();
        let in_portion = marks(alloc, &self.portion, order)?;
        let signs = signs(alloc, &self.rows, &in_portion)?;
        self.separate_all(&signs, order)
    }

    fn separate_all(&mut self, signs: &[bool], order: usize) -> Result<bool, Memory> {
        for x in 0..order {
            if !self.separate(signs, order, x)? {
                return Ok(false);
            }
        }
        Ok(true)
    }

    /// Separates an element from those behind it, and answers whether it could.
    fn separate(&mut self, signs: &[bool], order: usize, x: usize) -> Result<bool, Memory> {
        for y in x.saturating_add(1)..order {
            let Some(z) = separating(row(signs, order, x), row(signs, order, y)) else {
                return Ok(false);
            };
            self.apart.push(z)?;
        }
        Ok(true)
    }
}
