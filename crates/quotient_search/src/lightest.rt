//! Lightest words of heaps for the elements of a quotient, and representatives found anew.
use crate::cells::{clear, index, put_index, put_word, set_bit, small, word, words_for};
use crate::congruence::generators;
use crate::lists::ElementLists;
use crate::quotient::{HeapQuotient, heap_weight};
use crate::work::{Halt, Means, Work};
use std::alloc::Allocator;
use std::mem;

/// For each element the weight of its lightest word, and that word: the element of all but its last
/// heap, and the last heap.
#[derive(Drop)]
pub struct Words<A: Allocator> {
    pub weights: Vec<u64, A>,
    pub before: Vec<usize, A>,
    pub heaps: Vec<usize, A>,
}

/// The first heap of an element.
fn first_heap<A: Allocator>(quotient: &HeapQuotient<A>, x: usize) -> usize {
    for n in 1..quotient.heaps.len().saturating_add(1) {
        if quotient.heap(n) == x {
            return n;
        }
    }
    0
}

/// The lightest heap of each element of a heap but the identity.
fn light_heaps<A: Allocator + Copy>(
    means: &mut Means<'_, A>,
    quotient: &HeapQuotient<A>,
) -> Result<Vec<usize, A>, Halt> {
    let mut heaps = generators(means, quotient)?;
    for place in 0..heaps.len() {
        means.work.spend(quotient.heaps.len())?;
        let heap = first_heap(quotient, index(&heaps, place));
        put_index(&mut heaps, place, heap);
    }
    Ok(heaps)
}

impl<A: Allocator + Copy> Words<A> {
    /// The empty word, for the identity, and none for the others.
    fn new(alloc: A, order: usize) -> Result<Words<A>, Halt> {
        let mut words = Words {
            weights: Vec::new(alloc),
            before: Vec::new(alloc),
            heaps: Vec::new(alloc),
        };
        words.begin(order)?;
        Ok(words)
    }
}

impl<A: Allocator> Words<A> {
    fn begin(&mut self, order: usize) -> Result<(), Halt> {
        self.weights.resize(order, u64::MAX)?;
        self.before.resize(order, 0)?;
        self.heaps.resize(order, 0)?;
        put_word(&mut self.weights, 0, 0);
        Ok(())
    }

    /// Takes lighter words until there are none.
    fn lighten(
        &mut self,
        quotient: &HeapQuotient<A>,
        heaps: &[usize],
        work: &mut Work,
    ) -> Result<(), Halt> {
        for _ in 0..quotient.order {
            if !self.relax_all(quotient, heaps, work)? {
                break;
            }
        }
        Ok(())
    }

    /// Takes the words with one more of the heaps, where these are lighter. Answers whether one
    /// was.
    fn relax_all(
        &mut self,
        quotient: &HeapQuotient<A>,
        heaps: &[usize],
        work: &mut Work,
    ) -> Result<bool, Halt> {
        let mut lighter = false;
        for heap in heaps {
            work.spend(quotient.order)?;
            lighter |= self.relax(quotient, *heap);
        }
        Ok(lighter)
    }

    /// Takes the words of the elements, each with one more heap, where these are lighter. Answers
    /// whether one was.
    fn relax(&mut self, quotient: &HeapQuotient<A>, heap: usize) -> bool {
        let mut lighter = false;
        let element = quotient.heap(heap);
        for y in 0..quotient.order {
            let weight = word(&self.weights, y).saturating_add(heap_weight(heap));
            let product = quotient.times(y, element);
            if weight < word(&self.weights, product) {
                put_word(&mut self.weights, product, weight);
                put_index(&mut self.before, product, y);
                put_index(&mut self.heaps, product, heap);
                lighter = true;
            }
        }
        lighter
    }
}

/// The lightest words.
pub fn lightest_words<A: Allocator + Copy>(
    means: &mut Means<'_, A>,
    quotient: &HeapQuotient<A>,
) -> Result<Words<A>, Halt> {
    let heaps = light_heaps(means, quotient)?;
    let mut words = Words::new(means.alloc, quotient.order)?;
    words.lighten(quotient, &heaps, &mut means.work)?;
    Ok(words)
}

/// Elements in the order of the weights of their lightest words.
#[derive(Drop)]
struct Renumbering<A: Allocator> {
    words: Words<A>,
    list: Vec<(u64, usize), A>,
    places: Vec<usize, A>,
}

fn renumber<A: Allocator + Copy>(
    means: &mut Means<'_, A>,
    quotient: &HeapQuotient<A>,
) -> Result<Renumbering<A>, Halt> {
    let words = lightest_words(means, quotient)?;
    let list = by_weight(means.alloc, &words.weights)?;
    let places = places_of(means.alloc, &list)?;
    Ok(Renumbering {
        words,
        list,
        places,
    })
}

/// The elements by their weights.
fn by_weight<A: Allocator + Copy>(alloc: A, weights: &[u64]) -> Result<Vec<(u64, usize), A>, Halt> {
    let mut list: Vec<(u64, usize), A> = Vec::new(alloc);
    for (element, weight) in weights.iter().enumerate() {
        list.push((*weight, element))?;
    }
    list.sort_unstable();
    Ok(list)
}

/// The place of each element in a list.
fn places_of<A: Allocator + Copy>(alloc: A, list: &[(u64, usize)]) -> Result<Vec<usize, A>, Halt> {
    let mut places: Vec<usize, A> = vec![in alloc; 0usize; list.len()]?;
    for (place, (_, element)) in list.iter().enumerate() {
        put_index(&mut places, *element, place);
    }
    Ok(places)
}

/// Writes the weights and the rows.
fn write_rows<A: Allocator>(
    old: &HeapQuotient<A>,
    numbers: &Renumbering<A>,
    new: &mut HeapQuotient<A>,
) -> Result<(), Halt> {
    for (weight, element) in numbers.list.iter() {
        new.weights.push(*weight)?;
        new.rows.extend_from_slice(old.row(*element))?;
    }
    Ok(())
}

/// Writes the elements of the heaps.
fn write_heaps<A: Allocator>(
    old: &HeapQuotient<A>,
    numbers: &Renumbering<A>,
    heaps: &mut Vec<u16, A>,
) -> Result<(), Halt> {
    for heap in old.heaps.iter() {
        heaps.push(small(index(&numbers.places, *heap as usize)))?;
    }
    Ok(())
}

/// Writes the products.
fn write_products<A: Allocator>(
    old: &HeapQuotient<A>,
    numbers: &Renumbering<A>,
    products: &mut Vec<u16, A>,
) -> Result<(), Halt> {
    products.reserve(old.order.saturating_mul(old.order))?;
    for (_, one) in numbers.list.iter() {
        for (_, other) in numbers.list.iter() {
            let product = index(&numbers.places, old.times(*one, *other));
            products.push(small(product))?;
        }
    }
    Ok(())
}

/// Adds the products of an element with those of a list.
fn add_products<A: Allocator>(
    quotient: &HeapQuotient<A>,
    x: usize,
    list: &[u16],
    set: &mut Vec<u64, A>,
) {
    for y in list {
        set_bit(set, quotient.times(x, *y as usize));
    }
}

/// Writes the option values of the representatives: those of a word without its last heap, beside
/// that heap, and those of that heap, beside the word without it.
fn write_options<A: Allocator>(
    quotient: &HeapQuotient<A>,
    numbers: &Renumbering<A>,
    set: &mut Vec<u64, A>,
    options: &mut ElementLists<A>,
    work: &mut Work,
) -> Result<(), Halt> {
    for (place, (_, element)) in numbers.list.iter().enumerate() {
        clear(set);
        if place > 0 {
            let heap = index(&numbers.words.heaps, *element);
            let before = index(&numbers.places, index(&numbers.words.before, *element));
            add_products(quotient, quotient.heap(heap), options.list(before), set);
            add_products(quotient, before, quotient.heap_moves(heap), set);
        }
        options.push_set(set)?;
        work.spend(quotient.order)?;
    }
    Ok(())
}

/// The option values of the representatives, once the products and the heaps are there.
fn options_of<A: Allocator + Copy>(
    means: &mut Means<'_, A>,
    quotient: &HeapQuotient<A>,
    numbers: &Renumbering<A>,
) -> Result<ElementLists<A>, Halt> {
    let mut options: ElementLists<A> = ElementLists::new(means.alloc);
    let mut set: Vec<u64, A> = vec![in means.alloc; 0u64; words_for(quotient.order)]?;
    write_options(quotient, numbers, &mut set, &mut options, &mut means.work)?;
    Ok(options)
}

/// Writes a quotient in the new numbers into an empty one.
fn renew<A: Allocator + Copy>(
    means: &mut Means<'_, A>,
    old: &HeapQuotient<A>,
    numbers: &Renumbering<A>,
    new: &mut HeapQuotient<A>,
) -> Result<(), Halt> {
    new.order = old.order;
    new.words = old.words;
    write_rows(old, numbers, new)?;
    write_heaps(old, numbers, &mut new.heaps)?;
    write_products(old, numbers, &mut new.products)?;
    new.renew_moves(means)?;
    new.options = options_of(means, new, numbers)?;
    Ok(())
}

/// Takes the new numbers.
fn take_numbers<A: Allocator + Copy>(
    means: &mut Means<'_, A>,
    quotient: &mut HeapQuotient<A>,
    numbers: &Renumbering<A>,
) -> Result<(), Halt> {
    let mut new = HeapQuotient::empty(means.alloc);
    let renewed = renew(means, quotient, numbers, &mut new);
    if renewed.is_ok() {
        mem::swap(quotient, &mut new);
    }
    drop(new);
    renewed
}

/// Finds the representatives of a quotient anew, and numbers the elements by their weights.
pub fn lighten<A: Allocator + Copy>(
    means: &mut Means<'_, A>,
    quotient: &mut HeapQuotient<A>,
) -> Result<(), Halt> {
    means
        .work
        .spend(quotient.order.saturating_mul(quotient.order))?;
    let numbers = renumber(means, quotient)?;
    let taken = take_numbers(means, quotient, &numbers);
    drop(numbers);
    taken
}
