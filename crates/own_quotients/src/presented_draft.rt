//! A draft of the certificate of a presentation's heaps. Nothing is promised of it but that the call ends.
use crate::elements::{Elements, elements_of};
use allocation::Memory;
use guesses::{Drafts, Guess};
use misere_theory::LARGEST_ORDER;
use presented_tables::{Presented, in_portion};
use std::alloc::Global;

/// Whether each element is in the portion.
fn marks(alloc: Global, said: &Presented, elements: &Elements) -> Result<Vec<bool>, Memory> {
    let mut marks = Vec::new(alloc);
    for x in 0..elements.words.len() {
        marks.push(in_portion(said, &elements.words[x]))?;
    }
    Ok(marks)
}

/// The element of a heap, if it has a word.
fn heap_element(said: &Presented, elements: &Elements, n: u64) -> Option<u16> {
    let word = said.word(n)?;
    let form = said.basis.normal_form(&word)?;
    let element = elements.place(&form)?;
    Some(element.min(u16::MAX as usize) as u16)
}

/// The elements of the heaps of the list, if each has a word.
fn heap_elements(
    alloc: Global,
    said: &Presented,
    elements: &Elements,
) -> Result<Option<Vec<u16>>, Memory> {
    let mut heaps = Vec::new(alloc);
    for n in 1..said.heaps as u64 + 1 {
        match heap_element(said, elements, n) {
            Some(element) => heaps.push(element)?,
            None => return Ok(None),
        }
    }
    Ok(Some(heaps))
}

/// The quotient as a guess, if each heap of the list has a word.
fn guess(alloc: Global, said: &Presented, order: usize) -> Result<Option<Guess>, Memory> {
    let Some(elements) = elements_of(alloc, said, order)? else {
        return Ok(None);
    };
    let Some(heaps) = heap_elements(alloc, said, &elements)? else {
        return Ok(None);
    };
    let products = elements.products(alloc)?;
    let in_portion = marks(alloc, said, &elements)?;
    let start = (said.heaps.saturating_sub(said.period)) as usize;
    Ok(Some(Guess {
        order,
        products,
        in_portion,
        heaps,
        start: start.saturating_add(1),
        period: said.period as usize,
        shown: true,
    }))
}

/// The text of a certificate that the presentation makes, if one can be made.
pub(crate) fn draft(
    alloc: Global,
    said: &Presented,
    order: usize,
) -> Result<Option<Vec<u8>>, Memory> {
    if order > LARGEST_ORDER as usize {
        return Ok(None);
    }
    let Some(guess) = guess(alloc, said, order)? else {
        return Ok(None);
    };
    let mut drafts = if said.period == 0 {
        Drafts::of_part(alloc, guess)?
    } else {
        Drafts::new(alloc, guess)?
    };
    drafts.next(&said.code, LARGEST_ORDER as usize)
}
