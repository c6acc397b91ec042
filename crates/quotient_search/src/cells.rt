//! Reading and writing at places that may lie outside: there 0 is read, and nothing is written.
use std::alloc::Allocator;

/// How many bits a word has.
pub const WORD_BITS: usize = 64;

/// So many words have room for so many bits and one more.
#[inline]
pub fn words_for(bits: usize) -> usize {
    bits / WORD_BITS + 1
}

/// The number at a place.
#[inline]
pub fn at(cells: &[u16], place: usize) -> usize {
    match cells.get(place) {
        Some(number) => *number as usize,
        None => 0,
    }
}

/// Writes a number at a place.
#[inline]
pub fn put<A: Allocator>(cells: &mut Vec<u16, A>, place: usize, number: usize) {
    if place < cells.len() {
        cells[place] = small(number);
    }
}

/// The number itself, where it is small, and 0 otherwise.
#[inline]
pub fn small(number: usize) -> u16 {
    if number <= u16::MAX as usize {
        number as u16
    } else {
        0
    }
}

/// The number at a place.
#[inline]
pub fn index(cells: &[usize], place: usize) -> usize {
    match cells.get(place) {
        Some(number) => *number,
        None => 0,
    }
}

/// Writes a number at a place.
#[inline]
pub fn put_index<A: Allocator>(cells: &mut Vec<usize, A>, place: usize, number: usize) {
    if place < cells.len() {
        cells[place] = number;
    }
}

/// The word at a place.
#[inline]
pub fn word(words: &[u64], place: usize) -> u64 {
    match words.get(place) {
        Some(word) => *word,
        None => 0,
    }
}

/// Writes a word at a place.
#[inline]
pub fn put_word<A: Allocator>(words: &mut Vec<u64, A>, place: usize, number: u64) {
    if place < words.len() {
        words[place] = number;
    }
}

/// Whether a bit is set.
#[inline]
pub fn bit(words: &[u64], place: usize) -> bool {
    (word(words, place / WORD_BITS) >> (place % WORD_BITS)) & 1 == 1
}

/// Sets a bit.
#[inline]
pub fn set_bit<A: Allocator>(words: &mut Vec<u64, A>, place: usize) {
    let at = place / WORD_BITS;
    if at < words.len() {
        words[at] |= 1u64 << (place % WORD_BITS);
    }
}

/// So many words from a place on, or none where they don't all lie there.
#[inline]
pub fn part(words: &[u64], from: usize, count: usize) -> &[u64] {
    if from <= words.len() && count <= words.len() - from {
        &words[from..from + count]
    } else {
        &[]
    }
}

/// Makes every word 0.
pub fn clear<A: Allocator>(words: &mut Vec<u64, A>) {
    words.fill(0);
}
