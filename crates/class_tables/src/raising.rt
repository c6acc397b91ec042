//! A search for folds, of which nothing is promised: periods are multiplied, and thresholds raised, until each class is led
//! to one class.
ghost use Rattle.std.specs.Prelude.{IfErr};
ghost use Rattle.presented_tables.specs.Faults.{IsTrueOf};

use crate::beside::heap_word;
use crate::classes::ListedWords;
use crate::folding::cycle_at;
use crate::leading::{form_of, leads};
use crate::listing::words_of;
use crate::lists::{Folds, MOST_CLASSES, Thresholds};
use crate::powers::is_unbounded;
use allocation::Memory;
use heap_options::{Left, options};
use normal_forms::{Exponents, Rule};
use presentations::LETTERS;
use presented_tables::{Presented, TablesFault, product};
use presented_text::LetterCycle;
use std::alloc::Allocator;

/// How large an exponent is that is taken for a far one.
const FAR: u16 = 41;

/// How many times a period is taken at most.
const MOST_TIMES: u16 = 12;

/// How often thresholds are raised at most.
const MOST_RAISED: usize = 200;

/// The most that a left word has of letter `i`.
fn most_left(rules: &[Rule], i: usize) -> u16 {
    let mut most: u16 = 0;
    if i < LETTERS {
        for rule in rules {
            most = most.max(rule.left[i]);
        }
    }
    most
}

/// The least thresholds, with the cycles' own periods.
fn least_folds<A: Allocator + Copy>(
    alloc: A,
    p: &Presented<A>,
) -> Result<Vec<LetterCycle, A>, Memory> {
    let mut folds = Vec::new(alloc);
    for i in 0..p.cycles.len() {
        let cycle = p.cycles[i];
        folds.push(LetterCycle {
            start: cycle.start.max(most_left(p.basis.rules(), i)),
            period: cycle.period,
        })?;
    }
    Ok(folds)
}

/// The folds with thresholds that are larger by `more`, but for letters that have a bounded power; and with period 1, if
/// that is wanted.
pub(crate) fn raised<A: Allocator + Copy>(
    alloc: A,
    p: &Presented<A>,
    folds: &[LetterCycle],
    more: u16,
    single: bool,
) -> Result<Vec<LetterCycle, A>, Memory> {
    let mut made = Vec::new(alloc);
    for i in 0..folds.len() {
        let more = if is_unbounded(p.basis.rules(), i) {
            more
        } else {
            0
        };
        made.push(LetterCycle {
            start: start_of(folds, i).saturating_add(more),
            period: if single { 1 } else { period_at(folds, i) },
        })?;
    }
    Ok(made)
}

/// The threshold of letter `j`, the largest one if it has none.
fn start_of(folds: &[LetterCycle], j: usize) -> u16 {
    if j >= folds.len() {
        return u16::MAX;
    }
    let fold = cycle_at(folds, j);
    fold.start
}

/// The period of letter `j`, 1 if it has none.
fn period_at(folds: &[LetterCycle], j: usize) -> u16 {
    if j >= folds.len() {
        return 1;
    }
    let fold = cycle_at(folds, j);
    fold.period
}

/// Whether a period more of letter `j`, far out, is seen to become whole periods beside the word.
fn is_whole_far<A: Allocator>(
    p: &Presented<A>,
    folds: &[LetterCycle],
    z: &Exponents,
    j: usize,
    period: u16,
) -> Option<bool> {
    if j >= LETTERS {
        return None;
    }
    let mut far = [0; LETTERS];
    far[j] = FAR;
    let t = form_of(p, z, &far)?;
    far[j] = FAR.checked_add(period)?;
    let u = form_of(p, z, &far)?;
    for i in 0..LETTERS {
        let more = match u[i].checked_sub(t[i]) {
            Some(more) => more,
            None => return Some(false),
        };
        let unit = if i == j { period } else { period_at(folds, i) };
        if unit == 0 || more % unit != 0 {
            return Some(false);
        }
    }
    Some(true)
}

/// The same beside each of the words.
fn is_whole_beside<A: Allocator>(
    p: &Presented<A>,
    folds: &[LetterCycle],
    list: &ListedWords<A>,
    j: usize,
    period: u16,
) -> bool {
    for k in 0..list.len() {
        let Some(z) = list.get(k) else {
            return false;
        };
        if is_whole_far(p, folds, z, j, period) != Some(true) {
            return false;
        }
    }
    true
}

/// The least multiple of the cycle's period that is, or the period that stands there.
fn period_of<A: Allocator>(
    p: &Presented<A>,
    folds: &[LetterCycle],
    list: &ListedWords<A>,
    j: usize,
) -> u16 {
    let one = period_at(&p.cycles, j);
    for times in 1..MOST_TIMES + 1 {
        let period = one.saturating_mul(times);
        if is_whole_beside(p, folds, list, j, period) {
            return period;
        }
    }
    period_at(folds, j)
}

/// Multiplies periods until all become whole ones.
fn multiply<A: Allocator + Copy>(
    p: &Presented<A>,
    folds: &mut [LetterCycle],
    list: &ListedWords<A>,
) {
    for _ in 0..4 {
        let mut changed = false;
        for j in 0..folds.len() {
            if j < p.cycles.len() && is_unbounded(p.basis.rules(), j) {
                let period = period_of(p, folds, list, j);
                changed |= period != period_at(folds, j);
                folds[j] = LetterCycle {
                    start: start_of(folds, j),
                    period,
                };
            }
        }
        if !changed {
            return;
        }
    }
}

/// A letter of the class that runs on, and isn't led to whole periods by the word.
fn letter_in_the_way<A: Allocator>(
    p: &Presented<A>,
    tops: &[LetterCycle],
    folds: &[LetterCycle],
    a: &Exponents,
    z: &Exponents,
) -> Option<usize> {
    if leads(p, tops, folds, a, z) {
        return None;
    }
    for j in 0..folds.len() {
        if j < LETTERS && start_of(folds, j) <= a[j] {
            let mut alone = *a;
            for i in 0..folds.len() {
                if i != j && i < LETTERS && start_of(folds, i) <= a[i] {
                    alone[i] = start_of(folds, i).saturating_sub(1).min(a[i]);
                }
            }
            if !leads(p, tops, folds, &alone, z) {
                return Some(j);
            }
        }
    }
    first_running(folds, a)
}

/// The first letter that runs on in the class.
fn first_running(folds: &[LetterCycle], a: &Exponents) -> Option<usize> {
    for j in 0..folds.len() {
        if j < LETTERS && start_of(folds, j) <= a[j] {
            return Some(j);
        }
    }
    None
}

/// A letter of the class that isn't led to whole periods by one of the words.
fn first_beside<A: Allocator>(
    p: &Presented<A>,
    tops: &[LetterCycle],
    folds: &[LetterCycle],
    a: &Exponents,
    words: &ListedWords<A>,
) -> Option<usize> {
    for w in 0..words.len() {
        if let Some(j) = letter_in_the_way(p, tops, folds, a, words.get(w)?) {
            return Some(j);
        }
    }
    None
}

/// Whether the class is among those that were led by all words. The word of nothing is in each list.
fn is_passed<A: Allocator>(passed: &ListedWords<A>, a: &Exponents) -> bool {
    match passed.find(a) {
        Some(k) => 0 < k,
        None => false,
    }
}

/// A letter of one of the classes that isn't led to whole periods by one of the words. Classes that all words lead are
/// passed: they are when thresholds are larger, too.
fn first_in_the_way<A: Allocator>(
    p: &Presented<A>,
    tops: &[LetterCycle],
    folds: &[LetterCycle],
    classes: &ListedWords<A>,
    words: &ListedWords<A>,
    passed: &mut ListedWords<A>,
) -> Result<Option<usize>, Memory> {
    for x in 0..classes.len() {
        let Some(a) = classes.get(x) else {
            return Ok(None);
        };
        if first_running(folds, a).is_some() && !is_passed(passed, a) {
            let found = first_beside(p, tops, folds, a, words);
            if found.is_some() {
                return Ok(found);
            }
            passed.add(*a)?;
        }
    }
    Ok(None)
}

/// The most that classes, words and relations come to, multiplied, in one look.
const MOST_LOOKS: usize = 1 << 36;

/// Whether so many classes, words and relations come to more.
fn is_too_much(classes: usize, words: usize, relations: usize) -> bool {
    classes
        .saturating_mul(words)
        .saturating_mul(relations.saturating_add(1))
        > MOST_LOOKS
}

/// Raises thresholds until each class is led to one class of `tops` by each word.
fn raise<A: Allocator + Copy>(
    alloc: A,
    p: &Presented<A>,
    tops: &[LetterCycle],
    folds: &mut [LetterCycle],
    words: &ListedWords<A>,
) -> Result<(), TablesFault>
    ensures { IfErr result (λ f. IsTrueOf p.now f) }
{
    let mut passed = ListedWords::new(alloc)?;
    for _ in 0..MOST_RAISED {
        let classes = words_of(alloc, p, folds, MOST_CLASSES)?;
        if is_too_much(classes.len(), words.len(), p.basis.rules().len()) {
            return Err(TablesFault::Limit);
        }
        match first_in_the_way(p, tops, folds, &classes, words, &mut passed)? {
            Some(j) => {
                if j < folds.len() {
                    folds[j] = LetterCycle {
                        start: start_of(folds, j).saturating_add(period_at(folds, j).max(1)),
                        period: period_at(folds, j),
                    };
                }
            }
            None => return Ok(()),
        }
    }
    Err(TablesFault::Limit)
}

/// The word of what is left of a heap, if there is room.
fn left_word<A: Allocator>(p: &Presented<A>, left: Left) -> Option<Exponents> {
    match left {
        Left::Nothing => None,
        Left::One(a) => Some(heap_word(p, a)),
        Left::Two(a, b) => product(&heap_word(p, a), &heap_word(p, b)),
        Left::Three(a, b, c) => product(
            &heap_word(p, a),
            &product(&heap_word(p, b), &heap_word(p, c))?,
        ),
    }
}

/// The words of heaps; and those of their options, if they are wanted.
fn heap_words<A: Allocator + Copy>(
    alloc: A,
    p: &Presented<A>,
    options_too: bool,
) -> Result<ListedWords<A>, TablesFault>
    ensures { IfErr result (λ f. IsTrueOf p.now f) }
{
    let mut words = ListedWords::new(alloc)?;
    for n in 1..p.heaps as u64 + 1 {
        words.add(heap_word(p, n))?;
        if options_too {
            for left in options(&p.code, n) {
                if let Some(word) = left_word(p, left) {
                    words.add(word)?;
                }
            }
        }
    }
    Ok(words)
}

/// Thresholds with which tables of the presentation may be made, whatever the labels.
pub fn thresholds_for<A: Allocator + Copy>(
    alloc: A,
    p: &Presented<A>,
) -> Result<Thresholds<A>, TablesFault>
    ensures { IfErr result (λ f. IsTrueOf p.now f) }
{
    let mut base = least_folds(alloc, p)?;
    let small = raised(alloc, p, &base, 0, true)?;
    let near = words_of(alloc, p, &small, MOST_CLASSES)?;
    if is_too_much(near.len(), FAR as usize, p.basis.rules().len()) {
        return Err(TablesFault::Limit);
    }
    multiply(p, &mut base, &near);
    let mut tops = raised(alloc, p, &base, 0, false)?;
    raise(alloc, p, &base, &mut tops, &heap_words(alloc, p, true)?)?;
    Ok(Thresholds { base, tops })
}

/// Folds by which tables of the presentation may be made, with these labels.
pub fn folds_for<A: Allocator + Copy>(
    alloc: A,
    p: &Presented<A>,
    thresholds: &Thresholds<A>,
    labels: ListedWords<A>,
) -> Result<Folds<A>, TablesFault>
    ensures { IfErr result (λ f. IsTrueOf p.now f) }
{
    let base = raised(alloc, p, &thresholds.base, 0, false)?;
    let tops = raised(alloc, p, &thresholds.tops, 0, false)?;
    let mut folds = raised(alloc, p, &tops, 0, false)?;
    raise(alloc, p, &tops, &mut folds, &labels)?;
    let mut fine = raised(alloc, p, &folds, 0, false)?;
    raise(alloc, p, &folds, &mut fine, &heap_words(alloc, p, false)?)?;
    Ok(Folds {
        base,
        tops,
        folds,
        fine,
        labels,
    })
}
