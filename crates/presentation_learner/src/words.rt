//! Words of letters, and their order.
use normal_forms::{Exponents, Rule};
use presentations::LETTERS;
use std::cmp::Ordering;

/// The word without letters.
pub const ONE: Exponents = [0; LETTERS];

/// The exponent of a letter.
#[inline]
pub fn exponent(word: &Exponents, letter: usize) -> u16 {
    match word.get(letter) {
        Some(count) => *count,
        None => 0,
    }
}

/// The word with another exponent of a letter.
#[inline]
pub fn with_exponent(word: &Exponents, letter: usize, count: u16) -> Exponents {
    let mut changed = *word;
    if letter < LETTERS {
        changed[letter] = count;
    }
    changed
}

/// The word and a letter more.
#[inline]
pub fn lengthened(word: &Exponents, letter: usize) -> Exponents {
    with_exponent(word, letter, exponent(word, letter).saturating_add(1))
}

/// The last letter of a word, and the first one of all of a word without letters.
pub fn last_letter(word: &Exponents) -> usize {
    let mut last = 0usize;
    for letter in 0..LETTERS {
        if exponent(word, letter) > 0 {
            last = letter;
        }
    }
    last
}

/// How many letters a word has in all.
fn length(word: &Exponents) -> u32 {
    let mut count = 0u32;
    for letter in 0..LETTERS {
        count = count.saturating_add(exponent(word, letter) as u32);
    }
    count
}

/// Words of as many letters by their first letters.
fn by_letters(one: &Exponents, other: &Exponents) -> Ordering {
    for letter in 0..LETTERS {
        let (here, there) = (exponent(one, letter), exponent(other, letter));
        if here != there {
            return there.cmp(&here);
        }
    }
    Ordering::Equal
}

/// The order of words: those of fewer letters first, and of as many by the alphabet.
pub fn order(one: &Exponents, other: &Exponents) -> Ordering {
    let (here, there) = (length(one), length(other));
    if here != there {
        return here.cmp(&there);
    }
    by_letters(one, other)
}

/// Whether the first word is in the second one.
#[inline]
pub fn is_in(part: &Exponents, whole: &Exponents) -> bool {
    for letter in 0..LETTERS {
        if exponent(part, letter) > exponent(whole, letter) {
            return false;
        }
    }
    true
}

/// Whether the left word of some relation is in a word that has none but for the last of a letter.
pub fn is_reducible_at(rules: &[Rule], word: &Exponents, letter: usize) -> bool {
    let count = exponent(word, letter);
    for rule in rules.iter() {
        if exponent(&rule.left, letter) == count && is_in(&rule.left, word) {
            return true;
        }
    }
    false
}
