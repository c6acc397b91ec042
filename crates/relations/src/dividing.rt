//! The monoid of the words that divide some words, as rules rewrite them.
ghost use Rattle.std.specs.Prelude.{◌<◌, ◌≤◌};
ghost use Rattle.presentations.specs.declared.TheConstants.{LETTERS};
ghost use Rattle.relations.specs.declared.dividing.TheConstants.{MOST_DIVISORS};

use crate::checking::lengthened;
use crate::finding::STEPS;
use crate::rewriting::{Rules, fits, reduced};
use allocation::Memory;
use monoid_table::Table;
use presentations::{LETTERS, Word};
use std::alloc::Allocator;

/// The most elements of such a monoid, but for its zero.
const MOST_DIVISORS: usize = 512;

/// Whether the word is in one of the list, or the list is empty.
fn is_in_one(letters: usize, words: &[Word], word: &Word) -> bool
    requires { letters ≤ LETTERS }
{
    if words.is_empty() {
        return true;
    }
    for other in words {
        if fits(letters, word, other) {
            return true;
        }
    }
    false
}

/// The number of the word in the list, or how many there are.
fn number_of(words: &[Word], word: &Word) -> usize {
    for i in 0..words.len() {
        if words[i] == *word {
            return i;
        }
    }
    words.len()
}

/// The words that divide a word, as rules rewrite them, and to which of them each leads with each
/// letter once more; a number that none has says that it leads to none.
#[derive(Drop)]
struct Divisors<A: Allocator> {
    words: Vec<Word, A>,
    next: Vec<usize, A>,
}

/// The number of the word with letter `i` once more as rules rewrite it, if that is in one of these
/// words. It is added if it isn't there and there is room.
fn next_of<A: Allocator>(
    letters: usize,
    rules: &Rules<A>,
    multiples: &[Word],
    word: &Word,
    i: usize,
    words: &mut Vec<Word, A>,
) -> Result<usize, Memory>
    requires letters { letters ≤ LETTERS }
    requires i_in { i < letters }
{
    let Some(more) = lengthened(letters, word, i) else {
        return Ok(MOST_DIVISORS);
    };
    let more = reduced(letters, rules, &more, STEPS);
    if !is_in_one(letters, multiples, &more) {
        return Ok(MOST_DIVISORS);
    }
    let number = number_of(words.as_slice(), &more);
    if number == words.len() && number < MOST_DIVISORS {
        words.push(more)?;
    }
    Ok(number)
}

/// Adds where the word leads with each letter once more.
fn add_next<A: Allocator>(
    letters: usize,
    rules: &Rules<A>,
    multiples: &[Word],
    word: &Word,
    words: &mut Vec<Word, A>,
    next: &mut Vec<usize, A>,
) -> Result<(), Memory>
    requires { letters ≤ LETTERS }
{
    for i in 0..letters {
        let number = next_of(letters, rules, multiples, word, i, words)?;
        next.push(number)?;
    }
    Ok(())
}

/// The divisors of these words.
fn divisors_of<A: Allocator + Copy>(
    alloc: A,
    letters: usize,
    rules: &Rules<A>,
    multiples: &[Word],
) -> Result<Divisors<A>, Memory>
    requires { letters ≤ LETTERS }
{
    let mut words: Vec<Word, A> = Vec::new(alloc);
    let mut next: Vec<usize, A> = Vec::new(alloc);
    words.push([0u8; LETTERS])?;
    for at in 0..MOST_DIVISORS {
        if at >= words.len() {
            return Ok(Divisors { words, next });
        }
        let word = words[at];
        add_next(letters, rules, multiples, &word, &mut words, &mut next)?;
    }
    Ok(Divisors { words, next })
}

/// Where a divisor leads with letter `i` once more.
fn step(letters: usize, next: &[usize], at: usize, i: usize) -> usize
    requires letters { letters ≤ LETTERS }
    requires i_in { i < letters }
{
    if at >= MOST_DIVISORS {
        return MOST_DIVISORS;
    }
    let place = at * letters + i;
    if place < next.len() {
        next[place]
    } else {
        MOST_DIVISORS
    }
}

/// Where a divisor leads with letter `i` so many times more.
fn steps(letters: usize, next: &[usize], from: usize, i: usize, count: u8) -> usize
    requires letters { letters ≤ LETTERS }
    requires i_in { i < letters }
{
    let mut at = from;
    for _k in 0..count {
        at = step(letters, next, at, i);
    }
    at
}

/// Where a divisor leads with all letters of a word.
fn walk(letters: usize, next: &[usize], from: usize, word: &Word) -> usize
    requires { letters ≤ LETTERS }
{
    let mut at = from;
    for i in 0..letters {
        at = steps(letters, next, at, i, word[i]);
    }
    at
}

/// The element of a number: that of the zero if it is none of so many.
fn element_of(number: usize, count: usize) -> u16
    ensures { result ≤ MOST_DIVISORS }
{
    let element = number.min(count).min(MOST_DIVISORS);
    element as u16
}

/// Adds a row of the products of a divisor with all, and with the zero.
fn add_row<A: Allocator>(
    letters: usize,
    words: &[Word],
    next: &[usize],
    from: usize,
    rows: &mut Vec<u16, A>,
) -> Result<(), Memory>
    requires { letters ≤ LETTERS }
{
    for word in words {
        let to = walk(letters, next, from, word);
        rows.push(element_of(to, words.len()))?;
    }
    rows.push(element_of(words.len(), words.len()))?;
    Ok(())
}

/// All rows, that of the zero last.
fn rows_of<A: Allocator>(
    alloc: A,
    letters: usize,
    words: &[Word],
    next: &[usize],
) -> Result<Vec<u16, A>, Memory>
    requires { letters ≤ LETTERS }
{
    let mut rows: Vec<u16, A> = Vec::new(alloc);
    for from in 0..words.len() {
        add_row(letters, words, next, from, &mut rows)?;
    }
    add_row(letters, words, next, words.len(), &mut rows)?;
    Ok(rows)
}

/// The elements of the letters.
fn elements_of<A: Allocator>(
    alloc: A,
    letters: usize,
    next: &[usize],
    count: usize,
) -> Result<Vec<u16, A>, Memory>
    requires { letters ≤ LETTERS }
{
    let mut elements: Vec<u16, A> = Vec::new(alloc);
    for i in 0..letters {
        elements.push(element_of(step(letters, next, 0, i), count))?;
    }
    Ok(elements)
}

/// A monoid, and the elements of the letters.
#[derive(Drop)]
pub struct Quotient<A: Allocator> {
    pub table: Table<A>,
    pub elements: Vec<u16, A>,
}

/// The monoid of the divisors of these words, in which all that divides none of them is the zero.
pub fn quotient_of<A: Allocator + Copy>(
    alloc: A,
    letters: usize,
    rules: &Rules<A>,
    multiples: &[Word],
) -> Result<Option<Quotient<A>>, Memory>
    requires { letters ≤ LETTERS }
{
    let Divisors { words, next } = divisors_of(alloc, letters, rules, multiples)?;
    let count = words.len();
    let elements = elements_of(alloc, letters, next.as_slice(), count)?;
    let rows = rows_of(alloc, letters, words.as_slice(), next.as_slice())?;
    match Table::new(element_of(count, count) + 1, rows) {
        Ok(table) => Ok(Some(Quotient { table, elements })),
        Err(_) => Ok(None),
    }
}
