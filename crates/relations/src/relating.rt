//! Words that relations make of a word.
ghost use Rattle.std.specs.Prelude.{◌≤◌, ◌*◌};
ghost use Rattle.presentations.specs.declared.TheConstants.{LETTERS};

use crate::listing::has_word;
use crate::rewriting::rewritten;
use allocation::Memory;
use presentations::{LETTERS, Relation, Word};
use std::alloc::Allocator;

/// The most words that are looked at of those that relations make of one.
const MOST_WORDS: usize = 1000;

/// How many letters such words have more than it, at most.
const MORE_LETTERS: u32 = 8;

/// How many letters the word has.
fn count_letters(letters: usize, word: &Word) -> u32
    requires { letters ≤ LETTERS }
    ensures { result ≤ 255 * letters }
{
    let mut count = 0u32;
    for i in 0..letters {
        count += word[i] as u32;
    }
    count
}

/// Adds the word that a rule makes of a word, if it isn't there, nor longer than this, and there is room.
fn add_rewritten<A: Allocator>(
    letters: usize,
    rule: &Relation,
    word: &Word,
    longest: u32,
    found: &mut Vec<Word, A>,
) -> Result<(), Memory>
    requires { letters ≤ LETTERS }
{
    let Some(changed) = rewritten(letters, rule, word) else {
        return Ok(());
    };
    if found.len() < MOST_WORDS
        && count_letters(letters, &changed) <= longest
        && !has_word(found.as_slice(), &changed)
    {
        found.push(changed)?;
    }
    Ok(())
}

/// Adds the words that relations make of a word in one step, each used in both ways.
fn add_neighbours<A: Allocator>(
    letters: usize,
    relations: &[Relation],
    word: &Word,
    longest: u32,
    found: &mut Vec<Word, A>,
) -> Result<(), Memory>
    requires { letters ≤ LETTERS }
{
    for relation in relations {
        let turned = Relation {
            left: relation.right,
            right: relation.left,
        };
        add_rewritten(letters, relation, word, longest, found)?;
        add_rewritten(letters, &turned, word, longest, found)?;
    }
    Ok(())
}

/// Words that relations make of a word, and the word itself.
pub fn related_words<A: Allocator>(
    alloc: A,
    letters: usize,
    relations: &[Relation],
    word: &Word,
) -> Result<Vec<Word, A>, Memory>
    requires { letters ≤ LETTERS }
{
    let longest = count_letters(letters, word) + MORE_LETTERS;
    let mut found: Vec<Word, A> = Vec::new(alloc);
    found.push(*word)?;
    for at in 0..MOST_WORDS {
        if at >= found.len() {
            return Ok(found);
        }
        let from = found[at];
        add_neighbours(letters, relations, &from, longest, &mut found)?;
    }
    Ok(found)
}
