//! Relations with one between two powers of each letter, which `present` wants.
ghost use Rattle.std.specs.Prelude.{◌≡◌, ◌<◌, ◌≤◌, IfOk, IfSome, All, length, vec_len};
ghost use Rattle.presentations.specs.declared.TheConstants.{LETTERS, MOST_RELATIONS};
ghost use Rattle.relations.specs.Presented.{ArePresentation};
ghost use Rattle.relations.specs.Printed.{ArePrintable};

use crate::checking::{is_shown, value};
use crate::finding::{Description, MOST, STEPS};
use crate::listing::are_printable;
use allocation::Memory;
use monoid_table::Table;
use presentations::{LARGEST_EXPONENT, LETTERS, MOST_RELATIONS, Relation, Word};
use std::alloc::Allocator;

/// A power of one letter.
fn power(letter: usize, exponent: u8) -> Word
    requires { letter < LETTERS }
{
    let mut word = [0u8; LETTERS];
    word[letter] = exponent;
    word
}

/// Whether no other letter stands in the word.
fn is_power(word: &Word, letter: usize) -> bool {
    for i in 0..LETTERS {
        if i != letter && word[i] > 0 {
            return false;
        }
    }
    true
}

/// Whether some relation is between two powers of the letter.
fn is_bounded(relations: &[Relation], letter: usize) -> bool {
    for relation in relations {
        if is_power(&relation.left, letter) && is_power(&relation.right, letter) {
            return true;
        }
    }
    false
}

/// The least power of the letter that is a smaller one, which stands right: of at most
/// `LARGEST_EXPONENT`.
fn least_power<A: Allocator>(table: &Table<A>, elements: &[u16], letter: usize) -> Option<Relation>
    requires elements { All (λ e. e < table.now.order) elements.now }
    requires letters { length elements.now ≤ LETTERS }
    requires letter_in { letter < LETTERS }
{
    for most in 1..=LARGEST_EXPONENT {
        let left = power(letter, most);
        let element = value(table, elements, &left);
        if let Some(right) = smaller_power(table, elements, letter, most, element) {
            return Some(Relation { left, right });
        }
    }
    None
}

/// The least power of the letter below this one that is the element.
fn smaller_power<A: Allocator>(
    table: &Table<A>,
    elements: &[u16],
    letter: usize,
    most: u8,
    element: u16,
) -> Option<Word>
    requires elements { All (λ e. e < table.now.order) elements.now }
    requires letters { length elements.now ≤ LETTERS }
    requires letter_in { letter < LETTERS }
{
    for less in 0..most {
        let word = power(letter, less);
        if value(table, elements, &word) == element {
            return Some(word);
        }
    }
    None
}

/// The relations, and one between two powers of each letter that has none.
fn with_powers<A: Allocator>(
    alloc: A,
    table: &Table<A>,
    elements: &[u16],
    relations: &[Relation],
) -> Result<Vec<Relation, A>, Memory>
    requires elements { All (λ e. e < table.now.order) elements.now }
    requires letters { length elements.now ≤ LETTERS }
{
    let mut all: Vec<Relation, A> = Vec::new(alloc);
    for relation in relations {
        all.push(*relation)?;
    }
    for letter in 0..elements.len() {
        if !is_bounded(relations, letter) {
            if let Some(relation) = least_power(table, elements, letter) {
                all.push(relation)?;
            }
        }
    }
    Ok(all)
}

/// Relations as `present` takes them: those of the description, and one between two powers of each
/// letter that has none. None where there are more than `MOST_RELATIONS`, or an exponent is above
/// `LARGEST_EXPONENT`.
pub fn presentable<A: Allocator + Copy>(
    alloc: A,
    table: &Table<A>,
    description: &Description<A>,
) -> Result<Option<Vec<Relation, A>>, Memory>
    requires elements { All (λ e. e < table.now.order) description.now.elements.items }
    requires letters { vec_len description.now.elements ≤ LETTERS }
    ensures presentation { IfOk result (λ found. IfSome found
        (λ r. ArePresentation table.now description.now.elements.items r.items)) }
    ensures printable { IfOk result (λ found. IfSome found
        (λ r. ArePrintable (vec_len description.now.elements) r.items)) }
    ensures some { IfOk result (λ found. IfSome found (λ r. 0 < vec_len r)) }
    ensures few { IfOk result (λ found. IfSome found (λ r. vec_len r ≤ MOST_RELATIONS)) }
{
    let elements = description.elements.as_slice();
    let relations = description.relations.as_slice();
    let words = description.words.as_slice();
    let all = with_powers(alloc, table, elements, relations)?;
    let few = 0 < all.len() && all.len() <= MOST_RELATIONS;
    if !few || !are_printable(elements.len(), all.as_slice()) {
        return Ok(None);
    }
    if is_shown(alloc, table, elements, all.as_slice(), words, MOST, STEPS)? {
        Ok(Some(all))
    } else {
        Ok(None)
    }
}
