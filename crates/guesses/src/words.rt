//! Relations between the words of groups, and the monoid that they present.
use crate::groups::Groups;
use crate::guess::Guess;
use allocation::Memory;
use monoid_table::Table;
use octal_code::Code;
use positions::Outcome;
use presentations::{
    LARGEST_EXPONENT, LETTERS, MOST_RELATIONS, Named, NamedElement, PresFault, Presentation,
    Relation, Word, table_of,
};
use std::alloc::Global;

/// How many exponent vectors are merged.
const MOST_VECTORS: u32 = 4096;

/// The guess by the monoid that the groups' relations present, if there is one.
pub(crate) fn guess_by_relations(
    alloc: Global,
    code: &Code,
    groups: &Groups,
) -> Result<Option<Guess>, Memory> {
    let Some(relations) = relations(alloc, groups)? else {
        return Ok(None);
    };
    match table_of(alloc, &Presentation::new(relations), MOST_VECTORS) {
        Ok(named) => Ok(Some(guess_by_table(alloc, code, groups, named)?)),
        Err(PresFault::Memory) => Err(Memory),
        Err(_) => Ok(None),
    }
}

/// The relations between words that the groups suggest, where each kind has two powers in one group
/// and there are at most `MOST_RELATIONS`, and some.
fn relations(alloc: Global, groups: &Groups) -> Result<Option<Vec<Relation>>, Memory> {
    let mut relations = Vec::new(alloc);
    for k in 0..groups.kinds.len() {
        let Some((more, less)) = powers(alloc, groups, k)? else {
            return Ok(None);
        };
        relations.push(Relation {
            left: power(k, more),
            right: power(k, less),
        })?;
    }
    push_products(alloc, &mut relations, groups)?;
    let fits = !relations.is_empty() && relations.len() <= MOST_RELATIONS;
    Ok(if fits { Some(relations) } else { None })
}

/// A power of a kind's letter.
fn power(k: usize, exponent: u8) -> Word {
    let mut word = [0; LETTERS];
    if let Some(count) = word.get_mut(k) {
        *count = exponent;
    }
    word
}

/// The first two powers of a kind that are in one group, the larger first.
fn powers(alloc: Global, groups: &Groups, k: usize) -> Result<Option<(u8, u8)>, Memory> {
    let mut seen = vec![in alloc; 0usize]?;
    let mut group = 0;
    for more in 1..=LARGEST_EXPONENT {
        let Some(next) = groups.with(group, k) else {
            return Ok(None);
        };
        let less = (0..more).find(|less| seen.get(*less as usize).copied() == Some(next));
        if let Some(less) = less {
            return Ok(Some((more, less)));
        }
        seen.push(next)?;
        group = next;
    }
    Ok(None)
}

/// Adds the relations of each group's word with a letter more.
fn push_products(
    alloc: Global,
    relations: &mut Vec<Relation>,
    groups: &Groups,
) -> Result<(), Memory> {
    for at in 0..groups.members.len() {
        for k in 0..groups.kinds.len() {
            push_product(alloc, relations, groups, at, k)?;
        }
    }
    Ok(())
}

/// Adds the relation of a group's word with a letter more, where that isn't the word of its group.
fn push_product(
    alloc: Global,
    relations: &mut Vec<Relation>,
    groups: &Groups,
    at: usize,
    k: usize,
) -> Result<(), Memory> {
    let group = groups.with(at, k).unwrap_or(0);
    match (groups.longer_word(alloc, at, k)?, groups.members.get(group)) {
        (Some(longer), Some(member)) if longer != member.word => {
            relations.push(Relation {
                left: exponents(&longer),
                right: exponents(&member.word),
            })?;
            Ok(())
        }
        _ => Ok(()),
    }
}

/// The exponents of a word.
fn exponents(letters: &[u8]) -> Word {
    let mut word: Word = [0; LETTERS];
    for letter in letters {
        if let Some(count) = word.get_mut(letter.saturating_sub(b'a') as usize) {
            *count = count.saturating_add(1);
        }
    }
    word
}

/// The guess by the table.
fn guess_by_table(
    alloc: Global,
    code: &Code,
    groups: &Groups,
    named: Named,
) -> Result<Guess, Memory> {
    let elements = elements_of(alloc, groups, &named)?;
    let order = named.table.order() as usize;
    let in_portion = portion_of(alloc, groups, &elements, order)?;
    let heaps = heaps_of(alloc, groups, &elements)?;
    let Named { table, .. } = named;
    Ok(Guess::new(code, order, table.into_rows(), in_portion, heaps))
}

/// The elements of the groups' words.
fn elements_of(alloc: Global, groups: &Groups, named: &Named) -> Result<Vec<u16>, Memory> {
    let mut elements = Vec::new(alloc);
    for member in &groups.members {
        elements.push(element_of(&named.table, &named.generators, &member.word))?;
    }
    Ok(elements)
}

/// Whether an element's positions are P-positions, as those of the groups say.
fn portion_of(
    alloc: Global,
    groups: &Groups,
    elements: &[u16],
    order: usize,
) -> Result<Vec<bool>, Memory> {
    let mut in_portion = vec![in alloc; false; order]?;
    for (member, element) in groups.members.iter().zip(elements) {
        if let Some(is_marked) = in_portion.get_mut(*element as usize) {
            *is_marked = member.row.first().copied() == Some(Some(Outcome::P));
        }
    }
    Ok(in_portion)
}

/// The elements of the heaps.
fn heaps_of(alloc: Global, groups: &Groups, elements: &[u16]) -> Result<Vec<u16>, Memory> {
    let mut heaps = Vec::new(alloc);
    for group in &groups.heaps {
        heaps.push(elements.get(*group).copied().unwrap_or(0))?;
    }
    Ok(heaps)
}

/// The product of a word's letters.
fn element_of(table: &Table, generators: &[NamedElement], word: &[u8]) -> u16 {
    let mut element = 0;
    for letter in word {
        if let Some(generator) = generators.iter().find(|g| g.letter == *letter) {
            if element < table.order() && generator.element < table.order() {
                element = table.times(element, generator.element);
            }
        }
    }
    element
}
