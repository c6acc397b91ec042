//! A choice of labels, of which nothing is promised.
ghost use Rattle.std.specs.Prelude.{IfErr};
ghost use Rattle.presented_tables.specs.Faults.{IsTrueOf};

use crate::classes::ListedWords;
use crate::folding::cycle_at;
use crate::listing::{is_element, words_of};
use crate::lists::{MOST_CLASSES, Thresholds};
use crate::raising::raised;
use crate::splitting::Groups;
use allocation::Memory;
use normal_forms::with_letter;
use presentations::LETTERS;
use presented_tables::{Presented, TablesFault};
use presented_text::LetterCycle;
use std::alloc::Allocator;

/// The most that elements and labels come to, multiplied, where a few labels are chosen.
const MOST_LOOKS: usize = 1 << 30;

/// The thresholds, each no larger than this.
fn lowered<A: Allocator + Copy>(
    alloc: A,
    folds: &[LetterCycle],
    most: u16,
) -> Result<Vec<LetterCycle, A>, Memory> {
    let mut made = Vec::new(alloc);
    for i in 0..folds.len() {
        let fold = cycle_at(folds, i);
        made.push(LetterCycle {
            start: fold.start.min(most),
            period: fold.period,
        })?;
    }
    Ok(made)
}

/// All elements that have no letter more often than `more` times more than relations have, nor than `most` times.
pub fn near_labels<A: Allocator + Copy>(
    alloc: A,
    p: &Presented<A>,
    thresholds: &Thresholds<A>,
    more: u16,
    most: u16,
) -> Result<ListedWords<A>, TablesFault>
    ensures { IfErr result (λ f. IsTrueOf p.now f) }
{
    let all = raised(alloc, p, &thresholds.base, more, true)?;
    words_of(alloc, p, &lowered(alloc, &all, most)?, MOST_CLASSES)
}

/// Adds the powers of letter `i` up to that exponent, as long as they are elements.
fn add_powers<A: Allocator>(
    p: &Presented<A>,
    list: &mut ListedWords<A>,
    i: usize,
    most: u16,
) -> Result<(), Memory> {
    let mut word = [0; LETTERS];
    for _ in 0..most {
        let Some(more) = with_letter(&word, i) else {
            break;
        };
        word = more;
        if !is_element(p, &word) {
            break;
        }
        list.add(word)?;
    }
    Ok(())
}

/// The words of the portion, to be found by halves, and that of nothing, which is in none.
fn portion_words<A: Allocator + Copy>(
    alloc: A,
    p: &Presented<A>,
) -> Result<ListedWords<A>, Memory> {
    let mut list = ListedWords::new(alloc)?;
    for word in p.portion.iter() {
        list.add(*word)?;
    }
    Ok(list)
}

/// Those of the labels that tell elements apart which the ones before leave together.
fn splitting_labels<A: Allocator + Copy>(
    alloc: A,
    p: &Presented<A>,
    elements: &ListedWords<A>,
    labels: &ListedWords<A>,
) -> Result<ListedWords<A>, Memory> {
    let mut groups = Groups::new(alloc, elements.len())?;
    let portion = portion_words(alloc, p)?;
    let mut list = ListedWords::new(alloc)?;
    for w in 0..labels.len() {
        if elements.len() <= groups.len() {
            break;
        }
        let Some(word) = labels.get(w) else {
            break;
        };
        if groups.split(alloc, p, &portion, elements, word)? {
            list.add(*word)?;
        }
    }
    Ok(list)
}

/// Few labels that tell elements apart, and powers of letters that run on, up to `more` letters more than relations have.
pub fn telling_labels<A: Allocator + Copy>(
    alloc: A,
    p: &Presented<A>,
    thresholds: &Thresholds<A>,
    more: u16,
) -> Result<ListedWords<A>, TablesFault>
    ensures { IfErr result (λ f. IsTrueOf p.now f) }
{
    let elements = words_of(alloc, p, &thresholds.base, MOST_CLASSES)?;
    let labels = near_labels(alloc, p, thresholds, 1, u16::MAX)?;
    if elements.len().saturating_mul(labels.len()) > MOST_LOOKS {
        return Err(TablesFault::Limit);
    }
    let mut list = splitting_labels(alloc, p, &elements, &labels)?;
    let all = raised(alloc, p, &thresholds.base, more, true)?;
    for i in 0..all.len() {
        let fold = cycle_at(&all, i);
        add_powers(p, &mut list, i, fold.start)?;
    }
    Ok(list)
}
