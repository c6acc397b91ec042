//! The least words of a table's elements.
ghost use Rattle.std.specs.Prelude.{◌≡◌, ◌<◌, ◌≤◌, IfOk, All, length};
ghost use Rattle.presentations.specs.declared.TheConstants.{LETTERS};

use crate::checking::{lengthened, value};
use crate::fault::{Bound, Undescribed, met};
use crate::rewriting::is_same;
use monoid_table::Table;
use presentations::{LETTERS, Relation, Word};
use std::alloc::Allocator;

/// The last of the first letters that stands in the word, or 0.
pub fn last_letter(letters: usize, word: &Word) -> usize
    requires { letters ≤ LETTERS }
{
    let mut last = 0;
    for i in 0..letters {
        if word[i] > 0 {
            last = i;
        }
    }
    last
}

/// Whether the word without any one of its letters is the word of its element.
fn is_corner<A: Allocator>(table: &Table<A>, elements: &[u16], words: &[Word], word: &Word) -> bool
    requires elements { All (λ e. e < table.now.order) elements.now }
    requires letters { length elements.now ≤ LETTERS }
    requires words { length words.now ≡ table.now.order }
{
    for i in 0..elements.len() {
        if word[i] > 0 {
            let mut part = *word;
            part[i] -= 1;
            let e = value(table, elements, &part);
            if !is_same(elements.len(), &part, &words[e as usize]) {
                return false;
            }
        }
    }
    true
}

/// A word for each element, the elements in the order of their words, and relations that lead each
/// other word to one of these.
#[derive(Drop)]
pub struct Least<A: Allocator> {
    pub words: Vec<Word, A>,
    pub listing: Vec<u16, A>,
    pub basis: Vec<Relation, A>,
}

/// The elements' least words: of fewest letters, and of these the first in the alphabet. The
/// relations are those of the words that aren't least, but are so without any one of their letters.
/// It meets the bound `Exponents` where an exponent gets above `u8::MAX`.
pub fn least_words<A: Allocator + Copy>(
    alloc: A,
    table: &Table<A>,
    elements: &[u16],
) -> Result<Least<A>, Undescribed>
    requires elements { All (λ e. e < table.now.order) elements.now }
    requires letters { length elements.now ≤ LETTERS }
{
    let order = table.order() as usize;
    let mut words = vec![in alloc; [0u8; LETTERS]; order]?;
    let mut marks = vec![in alloc; false; order]?;
    let mut found: Vec<u16, A> = Vec::new(alloc);
    let mut basis: Vec<Relation, A> = Vec::new(alloc);
    marks[0] = true;
    found.push(0)?;
    for at in 0..order {
        if at >= found.len() {
            return Ok(Least {
                words,
                listing: found,
                basis,
            });
        }
        let from = words[found[at] as usize];
        for i in last_letter(elements.len(), &from)..elements.len() {
            let Some(word) = lengthened(elements.len(), &from, i) else {
                return Err(met(Bound::Exponents));
            };
            if is_corner(table, elements, words.as_slice(), &word) {
                let e = value(table, elements, &word);
                if marks[e as usize] {
                    basis.push(Relation {
                        left: word,
                        right: words[e as usize],
                    })?;
                } else {
                    marks[e as usize] = true;
                    words[e as usize] = word;
                    found.push(e)?;
                }
            }
        }
    }
    Ok(Least {
        words,
        listing: found,
        basis,
    })
}
